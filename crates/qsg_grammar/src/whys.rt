//! Why a script isn't read, and how that is printed.

ghost use Rattle.std.specs.Prelude.{◌≡◌, IfOk};
ghost use Rattle.std.specs.Fmt.{decimal};
ghost use Rattle.qsg_grammar.specs.Whys.{slice_of, slice_at, why_of_definition, why_of, with_argument, text_of_lexical, text_of_object};

use crate::faults::{Fault, Lack};
use mqsc_define::{DefineFault, Required};
use mqsc_lex::{LexFault, Word};
use qsg_num::Bytes;
use qsg_objects::ObjectFault;
use std::alloc::{AllocError, Global};

/// Why a script isn't read: the first fault of a statement, of a comment, or of the whole. A word is the slice of
/// its statement.
#[derive(Debug, Drop)]
pub enum Why {
    /// A line has more than 4,096 bytes.
    LongLine,
    /// A line, or the text of a statement, isn't UTF-8.
    NotUtf8,
    /// A text isn't words.
    Lex(LexFault),
    /// The first statement isn't GROUP.
    NoGroup,
    /// It isn't a number in its range, or has no such value; or isn't bytes in hexadecimal digits.
    BadNumber(Bytes),
    /// A name is out of its form.
    BadName(Bytes),
    /// A member or a structure isn't defined.
    UnknownName(Bytes),
    /// It has no place here, is a keyword without its value, or has a value where none stands.
    UnknownWord(Bytes),
    /// It stands a second time.
    Repeated(Bytes),
    /// More than so many members.
    TooMany(u32),
    /// More than so many bytes or steps.
    TooLarge(u32),
    /// The first word is no verb.
    UnknownVerb,
    /// The second word isn't there, or is no object of the verb.
    UnknownObject,
    /// It is no keyword of the object.
    UnknownKeyword(Bytes),
    /// Its keyword stood before.
    Twice(Bytes),
    /// The name in it has too many characters.
    NameTooLong(Bytes),
    /// Its value is out of its form or range, is absent where one is needed, or stands where none is.
    BadValue(Bytes),
    /// A CFLEVEL of 1 to 4.
    LevelNot5,
    /// A DSGROUP without an asterisk.
    NoAsterisk,
    /// A DSGROUP with two asterisks or more.
    TwoAsterisks,
    /// An object can't be defined.
    Object(ObjectFault),
    /// A word isn't there.
    Missing(Lack),
    /// A required keyword isn't there.
    MissingKeyword(Required),
    /// END is missing.
    NoEnd,
}

/// A name, a blank and an argument.
fn with_argument(alloc: Global, name: &str, argument: &[u8]) -> Result<Bytes, AllocError>
    ensures { IfOk result (λ t. t ≡ with_argument name.now argument.now) }
{
    let mut text = Vec::from_slice(alloc, name.as_bytes())?;
    text.push(b' ').map_err(|_| AllocError)?;
    text.extend_from_slice(argument)?;
    Ok(Bytes::from_vec(text))
}

/// A name, a blank and a number.
fn with_number(alloc: Global, name: &str, number: u32) -> Result<Bytes, AllocError>
    ensures { IfOk result (λ t. t ≡ with_argument name.now (decimal number)) }
{
    let digits = format!(in alloc; "{number}")?;
    with_argument(alloc, name, digits.as_str().as_bytes())
}

fn text_of_lexical(alloc: Global, fault: LexFault) -> Result<Bytes, AllocError>
    ensures { IfOk result (λ t. t ≡ text_of_lexical fault) }
{
    match fault {
        LexFault::UnclosedText(at) => with_number(alloc, "UnclosedText", at),
        LexFault::UnclosedParen(at) => with_number(alloc, "UnclosedParen", at),
        LexFault::EmptyValue(at) => with_number(alloc, "EmptyValue", at),
        LexFault::BadByte(at) => with_number(alloc, "BadByte", at),
    }
}

fn text_of_object(fault: ObjectFault) -> &'static str
    ensures { result.now ≡ text_of_object fault }
{
    match fault {
        ObjectFault::AlreadyDefined => "AlreadyDefined",
        ObjectFault::NoSuchStructure => "NoSuchStructure",
        ObjectFault::TooMany => "TooMany",
    }
}

/// The bytes of a text.
fn bytes_of(alloc: Global, text: &str) -> Result<Bytes, AllocError>
    ensures { IfOk result (λ t. t ≡ text.now) }
{
    Bytes::from_slice(alloc, text.as_bytes())
}

impl Why {
    ghost use Rattle.qsg_grammar.specs.Whys.{text_of_why};

    /// How it is printed: its name, and its argument behind a blank.
    pub fn text(&self, alloc: Global) -> Result<Bytes, AllocError>
        ensures { IfOk result (λ t. t ≡ text_of_why self.now) }
    {
        match self {
            Why::LongLine => bytes_of(alloc, "LongLine"),
            Why::NotUtf8 => bytes_of(alloc, "NotUtf8"),
            Why::Lex(fault) => text_of_lexical(alloc, *fault),
            Why::NoGroup => bytes_of(alloc, "NoGroup"),
            Why::BadNumber(word) => with_argument(alloc, "BadNumber", word.as_slice()),
            Why::BadName(word) => with_argument(alloc, "BadName", word.as_slice()),
            Why::UnknownName(word) => with_argument(alloc, "UnknownName", word.as_slice()),
            Why::UnknownWord(word) => with_argument(alloc, "UnknownWord", word.as_slice()),
            Why::Repeated(word) => with_argument(alloc, "Repeated", word.as_slice()),
            Why::TooMany(n) => with_number(alloc, "TooMany", *n),
            Why::TooLarge(n) => with_number(alloc, "TooLarge", *n),
            Why::UnknownVerb => bytes_of(alloc, "UnknownVerb"),
            Why::UnknownObject => bytes_of(alloc, "UnknownObject"),
            Why::UnknownKeyword(word) => with_argument(alloc, "UnknownKeyword", word.as_slice()),
            Why::Twice(word) => with_argument(alloc, "Twice", word.as_slice()),
            Why::NameTooLong(word) => with_argument(alloc, "NameTooLong", word.as_slice()),
            Why::BadValue(word) => with_argument(alloc, "BadValue", word.as_slice()),
            Why::LevelNot5 => bytes_of(alloc, "LevelNot5"),
            Why::NoAsterisk => bytes_of(alloc, "NoAsterisk"),
            Why::TwoAsterisks => bytes_of(alloc, "TwoAsterisks"),
            Why::Object(fault) => bytes_of(alloc, text_of_object(*fault)),
            Why::Missing(word) => with_argument(alloc, "Missing", word.text().as_bytes()),
            Why::MissingKeyword(keyword) => with_argument(
                alloc,
                "Missing",
                keyword.text().as_bytes(),
            ),
            Why::NoEnd => bytes_of(alloc, "NoEnd"),
        }
    }
}

/// The slice of a text that a word is.
fn slice_of<'a>(text: &'a str, word: &Word) -> &'a [u8]
    ensures { result.now ≡ slice_of text.now word.now }
{
    let bytes = text.as_bytes();
    let start = (word.start as usize).min(bytes.len());
    let end = (word.end as usize).min(bytes.len());
    &bytes[start..end.max(start)]
}

/// The slice of the word at a place; empty where there is none.
fn slice_at(alloc: Global, text: &str, words: &[Word], place: u32) -> Result<Bytes, AllocError>
    ensures { IfOk result (λ slice. slice ≡ slice_at text.now words.now place) }
{
    match words.get(place as usize) {
        Some(word) => Bytes::from_slice(alloc, slice_of(text, word)),
        None => Ok(Bytes::from_vec(Vec::new(alloc))),
    }
}

/// Why a definition or command is at fault, with the slice of the word at fault.
fn why_of_definition(
    alloc: Global,
    text: &str,
    words: &[Word],
    fault: DefineFault,
) -> Result<Why, AllocError>
    ensures { IfOk result (λ why. why ≡ why_of_definition text.now words.now fault) }
{
    Ok(match fault {
        DefineFault::UnknownVerb => Why::UnknownVerb,
        DefineFault::UnknownObject => Why::UnknownObject,
        DefineFault::UnknownKeyword(at) => Why::UnknownKeyword(slice_at(alloc, text, words, at)?),
        DefineFault::Twice(at) => Why::Twice(slice_at(alloc, text, words, at)?),
        DefineFault::NameTooLong(at) => Why::NameTooLong(slice_at(alloc, text, words, at)?),
        DefineFault::BadValue(at) => Why::BadValue(slice_at(alloc, text, words, at)?),
        DefineFault::LevelNot5 => Why::LevelNot5,
        DefineFault::NoAsterisk => Why::NoAsterisk,
        DefineFault::TwoAsterisks => Why::TwoAsterisks,
        DefineFault::Missing(keyword) => Why::MissingKeyword(keyword),
    })
}

/// Why a statement with this text and these words isn't read, with the slice of the word at fault.
pub fn why_of(alloc: Global, text: &str, words: &[Word], fault: Fault) -> Result<Why, AllocError>
    ensures { IfOk result (λ why. why ≡ why_of text.now words.now fault) }
{
    Ok(match fault {
        Fault::NoGroup => Why::NoGroup,
        Fault::BadNumber(at) => Why::BadNumber(slice_at(alloc, text, words, at)?),
        Fault::BadName(at) => Why::BadName(slice_at(alloc, text, words, at)?),
        Fault::UnknownName(at) => Why::UnknownName(slice_at(alloc, text, words, at)?),
        Fault::UnknownWord(at) => Why::UnknownWord(slice_at(alloc, text, words, at)?),
        Fault::Repeated(at) => Why::Repeated(slice_at(alloc, text, words, at)?),
        Fault::TooMany(n) => Why::TooMany(n),
        Fault::TooLarge(n) => Why::TooLarge(n),
        Fault::Define(fault) => return why_of_definition(alloc, text, words, fault),
        Fault::Object(fault) => Why::Object(fault),
        Fault::Missing(word) => Why::Missing(word),
    })
}
