//! What holds of the words of statements.

ghost use Rattle.std.specs.Prelude.{◌≡◌, ℕ, List, [], Some, None, true};
ghost use Rattle.mqsc_lex.specs.declared.words.Word.{Word};
ghost use Rattle.qsg_draft.specs.Contents.{Contents};
ghost use Rattle.qsg_grammar.specs.declared.kinds.Row.{Row};
ghost use Rattle.qsg_grammar.specs.declared.keywords.Keyword.{Keyword};
ghost use Rattle.qsg_grammar.specs.declared.faults.Fault.{Fault};
ghost use Rattle.qsg_grammar.specs.Starting.{opening_kind, definition_kind, task_kind, operator_kind};
ghost use Rattle.qsg_grammar.specs.Faults.{keyword_of, words_fault};
ghost use Rattle.qsg_grammar.specs.Laws.{fault_at, IsFirstFault};

/// The first word at fault decides; each word behind the first is looked at, and those before it count only as what
/// they are.
pub fn the_first_word_at_fault_decides()
    ensures decides { (c : Contents) (row : Row) (words : List Word) (fault : Fault) → IsFirstFault c row words fault → words_fault c row [] words ≡ Some fault }
    ensures stands { (c : Contents) (row : Row) (words : List Word) (fault : Fault) → words_fault c row [] words ≡ Some fault → IsFirstFault c row words fault }
    ensures right { (c : Contents) (row : Row) (words : List Word) → ((place : ℕ) → fault_at c row words place ≡ None) → words_fault c row [] words ≡ None }
    ensures none { (c : Contents) (row : Row) (words : List Word) → words_fault c row [] words ≡ None → (place : ℕ) → fault_at c row words place ≡ None }
{}

/// A quoted word begins no statement but a line of the schedule, and is no keyword.
pub fn quoted_words_are_plain_texts()
    ensures definition { (word : Word) → word.key_quoted ≡ true → definition_kind word ≡ None }
    ensures opening { (word : Word) → word.key_quoted ≡ true → opening_kind word ≡ None }
    ensures task { (word : Word) (words : List Word) → word.key_quoted ≡ true → task_kind word words ≡ None }
    ensures operator { (word : Word) (words : List Word) → word.key_quoted ≡ true → operator_kind word words ≡ None }
    ensures keyword { (allowed : List Keyword) (word : Word) → word.key_quoted ≡ true → keyword_of allowed word ≡ None }
{}
