//! A word and its value.

ghost use Rattle.std.specs.Prelude.{◌≡◌, length};

use qsg_num::{Bytes, Name};
use std::marker::Model;

/// The text of a value.
#[derive(Debug, Drop)]
pub struct Text {
    /// Its characters: a plain text is folded to upper case, and a quoted one stands without its apostrophes.
    pub text: Bytes,
    /// Whether it stood in apostrophes.
    pub quoted: bool,
}

/// A word: a text, and perhaps a value in parentheses right behind it.
#[derive(Debug, Drop)]
pub struct Word {
    /// Where it begins in its source, in bytes from 0.
    pub start: u32,
    /// Where it ends there: the place of the first byte after it.
    pub end: u32,
    /// Its first text, without its apostrophes if it is quoted, else folded to upper case.
    pub key: Name,
    /// Whether the first text stood in apostrophes. Such a word is no verb, object or keyword.
    pub key_quoted: bool,
    /// The text in parentheses, without the blanks round it.
    pub value: Option<Text>,
}

/// The words of a statement, in order.
#[derive(Debug, Drop)]
pub struct Words {
    items: Vec<Word>,
}

impl Model for Words {
    ghost use Rattle.std.specs.Prelude.{List};
    ghost use Rattle.mqsc_lex.specs.declared.words.Word.{Word};

    ghost Value = { List Word };

    ghost view = { λ w. w.items.items };
}

impl Words {
    /// The list that a `Vec` holds. Takes no memory.
    pub fn from_vec(items: Vec<Word>) -> Self
        ensures { result ≡ items.items }
    {
        Words { items }
    }

    /// The `Vec` that holds the list. Takes no memory.
    pub fn into_vec(self) -> Vec<Word>
        ensures { result.items ≡ self }
    {
        self.items
    }

    /// Its items.
    pub fn as_slice(&self) -> &[Word]
        ensures { result.now ≡ self.now }
    {
        self.items.as_slice()
    }

    /// How many items it has.
    pub fn len(&self) -> usize
        ensures { result ≡ length self.now }
    {
        self.items.len()
    }
}
