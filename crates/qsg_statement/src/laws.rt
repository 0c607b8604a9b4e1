//! What holds of statements.

ghost use Rattle.std.specs.Prelude.{◌≡◌, ℕ, List, [], ◌∷◌, length, slice_get, Some, None};
ghost use Rattle.mqsc_lex.specs.declared.words.Word.{Word};
ghost use Rattle.mqsc_define.specs.Definitions.{value_text};
ghost use Rattle.qsg_draft.specs.Contents.{Contents};
ghost use Rattle.qsg_grammar.specs.declared.kinds.Row.{Row};
ghost use Rattle.qsg_grammar.specs.declared.keywords.Keyword.{Keyword};
ghost use Rattle.qsg_grammar.specs.declared.whys.Why.{Why};
ghost use Rattle.qsg_grammar.specs.Table.{slots_of, keywords_of};
ghost use Rattle.qsg_grammar.specs.Faults.{keyword_of, words_fault};
ghost use Rattle.qsg_statement.specs.declared.statements.Statement.{Statement};
ghost use Rattle.qsg_statement.specs.Words.{text_behind};
ghost use Rattle.qsg_statement.specs.Reading.{IsStatement, IsWhy};

/// A text is at most one statement, or has at most one first fault, and never both.
pub fn texts_are_one_statement_or_at_fault()
    ensures one_statement { (c : Contents) (text : List ℕ) (a b : Statement) → IsStatement c text a → IsStatement c text b → a ≡ b }
    ensures one_fault { (c : Contents) (text : List ℕ) (a b : Why) → IsWhy c text a → IsWhy c text b → a ≡ b }
    ensures never_both { (c : Contents) (text : List ℕ) (s : Statement) (w : Why) → IsStatement c text s → IsWhy c text w → ⊥ }
{}

/// In a statement with one word before its keywords, and without a fault, each keyword counts, wherever it stands: what
/// is read behind it is the value of its word.
pub fn each_keyword_counts()
    ensures { (c : Contents) (row : Row) (subject : Word) (words : List Word) (place : ℕ) (word : Word) (keyword : Keyword) → length (slots_of row) ≡ 1 → words_fault c row [] (subject ∷ words) ≡ None → slice_get words place ≡ Some word → keyword_of (keywords_of row) word ≡ Some keyword → text_behind keyword words ≡ value_text word }
{}
