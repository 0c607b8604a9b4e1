//! What holds of the words of commands.

ghost use Rattle.std.specs.Prelude.{◌≡◌, ℕ, List, [], slice_get, Some, None, true};
ghost use Rattle.mqsc_lex.specs.declared.words.Word.{Word};
ghost use Rattle.mqsc_define.specs.declared.faults.DefineFault.{DefineFault};
ghost use Rattle.mqsc_define.specs.Definitions.{value_text};
ghost use Rattle.mqsc_admin.specs.declared.keywords.Verb.TheVariants as verb;
ghost use Rattle.mqsc_admin.specs.declared.keywords.Keyword.{Keyword};
ghost use Rattle.mqsc_admin.specs.Faults.{is_wanted, verb_of, object_of, keyword_of, words_fault, verb_fault};
ghost use Rattle.mqsc_admin.specs.Admins.{text_behind};
ghost use Rattle.mqsc_admin.specs.Laws.{fault_at, IsFirstFault, HasOne};

/// The first word at fault decides; each word is looked at, and those before it count only as keywords that stood.
pub fn the_first_word_at_fault_decides()
    ensures decides { (allowed : List Keyword) (first : ℕ) (words : List Word) (fault : DefineFault) → IsFirstFault allowed first words fault → words_fault allowed first [] words ≡ Some fault }
    ensures stands { (allowed : List Keyword) (first : ℕ) (words : List Word) (fault : DefineFault) → words_fault allowed first [] words ≡ Some fault → IsFirstFault allowed first words fault }
    ensures right { (allowed : List Keyword) (first : ℕ) (words : List Word) → ((place : ℕ) → fault_at allowed first words place ≡ None) → words_fault allowed first [] words ≡ None }
    ensures none { (allowed : List Keyword) (first : ℕ) (words : List Word) → words_fault allowed first [] words ≡ None → (place : ℕ) → fault_at allowed first words place ≡ None }
{}

/// In words without a fault each keyword counts, wherever it stands: what is read behind it is the value of its word.
pub fn each_keyword_counts()
    ensures { (allowed : List Keyword) (first : ℕ) (words : List Word) (place : ℕ) (word : Word) (keyword : Keyword) → words_fault allowed first [] words ≡ None → slice_get words place ≡ Some word → keyword_of allowed word ≡ Some keyword → text_behind keyword words ≡ value_text word }
{}

/// A quoted word is no verb, no object and no keyword.
pub fn quoted_words_are_plain_texts()
    ensures verb { (word : Word) → word.key_quoted ≡ true → verb_of word ≡ None }
    ensures object { (word : Word) → word.key_quoted ≡ true → object_of word ≡ None }
    ensures keyword { (allowed : List Keyword) (word : Word) → word.key_quoted ≡ true → keyword_of allowed word ≡ None }
{}

/// A RESET without a fault has one word of ACCESS and STATUS.
pub fn a_reset_has_one_of_access_and_status()
    ensures { (words : List Word) → verb_fault (Some verb.Reset) words ≡ None → HasOne is_wanted words }
{}
