//! What is wrong with the words of a definition or a command.

ghost use Rattle.std.specs.Prelude.{◌≡◌};
ghost use Rattle.mqsc_define.specs.Keywords.{text_of_required};

use std::alloc::AllocError;
use std::fmt;
use thiserror::Error;

/// A keyword that a definition or a command can't do without.
#[derive(Clone, Copy, Debug, PartialEq, Eq)]
pub enum Required {
    Cflevel,
    Offload,
    Dsgroup,
    Qsgdisp,
    Cfstruct,
    Smds,
    /// ACCESS or, in its place, STATUS.
    Access,
}

impl Required {
    /// The keyword, in capitals.
    pub fn text(self) -> &'static str
        ensures { result.now ≡ text_of_required self }
    {
        match self {
            Required::Cflevel => "CFLEVEL",
            Required::Offload => "OFFLOAD",
            Required::Dsgroup => "DSGROUP",
            Required::Qsgdisp => "QSGDISP",
            Required::Cfstruct => "CFSTRUCT",
            Required::Smds => "SMDS",
            Required::Access => "ACCESS",
        }
    }
}

impl fmt::Display for Required {
    ghost use Rattle.std.specs.Prelude.{Some};
    ghost use Rattle.mqsc_define.specs.Keywords.{text_of_required};

    ghost output = { λ k. Some (text_of_required k) };

    fn fmt<W: fmt::Write>(&self, f: &mut fmt::Formatter<W>) -> fmt::Result {
        f.write_str(self.text())
    }
}

/// The first fault of the words of a definition or a command. A place is the number of a word in the list, from 0.
#[derive(Clone, Copy, Debug, PartialEq, Eq, Error)]
pub enum DefineFault {
    /// There is no word, or the first isn't the verb, or has a value.
    #[error("UnknownVerb")]
    UnknownVerb,
    /// The second word isn't there, or is no object of the verb.
    #[error("UnknownObject")]
    UnknownObject,
    /// This word is no keyword of the object.
    #[error("UnknownKeyword {0}")]
    UnknownKeyword(u32),
    /// The keyword of this word stood before.
    #[error("Twice {0}")]
    Twice(u32),
    /// The name in this word has too many characters.
    #[error("NameTooLong {0}")]
    NameTooLong(u32),
    /// The value of this word is out of its form or range, is absent where one is needed, or stands where none is.
    #[error("BadValue {0}")]
    BadValue(u32),
    /// A CFLEVEL of 1 to 4.
    #[error("LevelNot5")]
    LevelNot5,
    /// A DSGROUP without an asterisk.
    #[error("NoAsterisk")]
    NoAsterisk,
    /// A DSGROUP with two asterisks or more.
    #[error("TwoAsterisks")]
    TwoAsterisks,
    /// Each word is right, and this is the first required keyword that is absent.
    #[error("Missing {0}")]
    Missing(Required),
}

/// Why words weren't read: their fault, or want of memory.
#[derive(Clone, Copy, Debug, PartialEq, Eq, Error)]
pub enum DefineError {
    /// The words are at fault.
    #[error("{0}")]
    Fault(DefineFault),
    /// There was no memory for the names and texts.
    #[error("no memory")]
    NoMemory,
}

impl From<AllocError> for DefineError {
    ghost use Rattle.mqsc_define.specs.declared.faults.DefineError.TheVariants.{NoMemory};

    ghost from_gives = { λ _ e. e ≡ NoMemory };

    fn from(_e: AllocError) -> DefineError {
        DefineError::NoMemory
    }
}
