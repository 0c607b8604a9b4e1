//! What holds of the words of a DEFINE.

ghost use Rattle.std.specs.Prelude.{◌≡◌, ℕ, ◌+◌, List, [], slice_get, Some, None, true, false};
ghost use Rattle.mqsc_lex.specs.declared.words.Word.{Word};
ghost use Rattle.mqsc_define.specs.declared.faults.DefineFault.{DefineFault};
ghost use Rattle.mqsc_define.specs.declared.keywords.Object.{Object};
ghost use Rattle.mqsc_define.specs.declared.keywords.Keyword.{Keyword};
ghost use Rattle.mqsc_define.specs.Keywords.{form_of_keyword};
ghost use Rattle.mqsc_define.specs.Values.{value_fault};
ghost use Rattle.mqsc_define.specs.Faults.{is_verb, object_of, keyword_of, words_fault};
ghost use Rattle.mqsc_define.specs.Definitions.{value_text, text_behind, structure_of, queue_of};
ghost use Rattle.mqsc_define.specs.Laws.{fault_at, IsFirstFault, HasStructureDefaults, HasQueueDefaults};

/// The first word at fault decides; each word is looked at, and those before it count only as keywords that stood.
pub fn the_first_word_at_fault_decides()
    ensures decides { (object : Object) (words : List Word) (fault : DefineFault) → IsFirstFault object words fault → words_fault object [] words ≡ Some fault }
    ensures stands { (object : Object) (words : List Word) (fault : DefineFault) → words_fault object [] words ≡ Some fault → IsFirstFault object words fault }
    ensures right { (object : Object) (words : List Word) → ((place : ℕ) → fault_at object words place ≡ None) → words_fault object [] words ≡ None }
    ensures none { (object : Object) (words : List Word) → words_fault object [] words ≡ None → (place : ℕ) → fault_at object words place ≡ None }
{}

/// In words without a fault each keyword counts, wherever it stands: what is read behind it is the value of its word,
/// and that is in the form of the keyword.
pub fn each_keyword_counts()
    ensures read { (object : Object) (words : List Word) (place : ℕ) (word : Word) (keyword : Keyword) → words_fault object [] words ≡ None → slice_get words place ≡ Some word → keyword_of object word ≡ Some keyword → text_behind keyword words ≡ value_text word }
    ensures good { (object : Object) (words : List Word) (place : ℕ) (word : Word) (keyword : Keyword) → words_fault object [] words ≡ None → slice_get words place ≡ Some word → keyword_of object word ≡ Some keyword → value_fault (2 + place) (form_of_keyword keyword) word.value ≡ None }
{}

/// A quoted word is no verb, no object and no keyword.
pub fn quoted_words_are_plain_texts()
    ensures verb { (word : Word) → word.key_quoted ≡ true → is_verb word ≡ false }
    ensures object { (word : Word) → word.key_quoted ≡ true → object_of word ≡ None }
    ensures keyword { (object : Object) (word : Word) → word.key_quoted ≡ true → keyword_of object word ≡ None }
{}

/// Where a keyword is absent, its default comes.
pub fn absent_keywords_have_defaults()
    ensures structures { (name : List ℕ) (words : List Word) → HasStructureDefaults words (structure_of name words) }
    ensures queues { (name : List ℕ) (words : List Word) → HasQueueDefaults words (queue_of name words) }
{}
