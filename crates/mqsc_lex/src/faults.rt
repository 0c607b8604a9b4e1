//! What is wrong with a text that isn't words.

ghost use Rattle.std.specs.Prelude.{◌≡◌};
ghost use Rattle.mqsc_lex.specs.Faults.{place_of};

use std::alloc::{AllocError, AllocFailed};
use thiserror::Error;

/// The leftmost fault of a text, with its place: bytes from the start of the text, from 0.
#[derive(Clone, Copy, Debug, PartialEq, Eq, Error)]
pub enum LexFault {
    /// The quoted text that this apostrophe opens isn't closed.
    #[error("UnclosedText {0}")]
    UnclosedText(u32),
    /// After this opening parenthesis, blanks aside, neither the closing one follows nor one text and then
    /// the closing one.
    #[error("UnclosedParen {0}")]
    UnclosedParen(u32),
    /// No text stands between this parenthesis and the closing one.
    #[error("EmptyValue {0}")]
    EmptyValue(u32),
    /// A byte below 32 other than a tab; a parenthesis or apostrophe where no word has one; or another byte
    /// where a blank must stand after a word.
    #[error("BadByte {0}")]
    BadByte(u32),
}

impl LexFault {
    /// Its place.
    pub fn place(self) -> u32
        ensures { result ≡ place_of self }
    {
        match self {
            LexFault::UnclosedText(at)
            | LexFault::UnclosedParen(at)
            | LexFault::EmptyValue(at)
            | LexFault::BadByte(at) => at,
        }
    }
}

/// Why a text wasn't read: its fault, or want of memory.
#[derive(Clone, Copy, Debug, PartialEq, Eq, Error)]
pub enum LexError {
    /// The text isn't words.
    #[error("{0}")]
    Fault(LexFault),
    /// There was no memory for the words.
    #[error("no memory")]
    NoMemory,
}

impl From<AllocError> for LexError {
    ghost use Rattle.mqsc_lex.specs.declared.faults.LexError.TheVariants.{NoMemory};

    ghost from_gives = { λ _ e. e ≡ NoMemory };

    fn from(_e: AllocError) -> LexError {
        LexError::NoMemory
    }
}

impl<T: Drop> From<AllocFailed<T>> for LexError {
    ghost use Rattle.mqsc_lex.specs.declared.faults.LexError.TheVariants.{NoMemory};

    ghost from_gives = { λ _ e. e ≡ NoMemory };

    fn from(_e: AllocFailed<T>) -> LexError {
        LexError::NoMemory
    }
}
