//! What is wrong with the words of a statement.

ghost use Rattle.std.specs.Prelude.{◌≡◌};
ghost use Rattle.qsg_grammar.specs.Texts.{text_of_lack};

use mqsc_define::DefineFault;
use qsg_objects::ObjectFault;

/// A word that isn't there, as the table of statements calls it.
#[derive(Clone, Copy, Debug, PartialEq, Eq)]
pub enum Lack {
    Name,
    Structure,
    Member,
    Queue,
    Actor,
    N,
    Count,
}

impl Lack {
    /// It, in capitals.
    pub fn text(self) -> &'static str
        ensures { result.now ≡ text_of_lack self }
    {
        match self {
            Lack::Name => "NAME",
            Lack::Structure => "STRUCTURE",
            Lack::Member => "MEMBER",
            Lack::Queue => "QUEUE",
            Lack::Actor => "ACTOR",
            Lack::N => "N",
            Lack::Count => "COUNT",
        }
    }
}

/// The first fault of the words of a statement. A place is the number of a word in the statement, from 0.
#[derive(Clone, Copy, Debug, PartialEq, Eq)]
pub enum Fault {
    /// The first statement isn't GROUP.
    NoGroup,
    /// This word is no number in its range, or has no such value; or no bytes in hexadecimal digits.
    BadNumber(u32),
    /// This word is a name out of its form.
    BadName(u32),
    /// This word names a member or a structure that isn't defined.
    UnknownName(u32),
    /// This word has no place here, is a keyword without its value, or has a value where none stands.
    UnknownWord(u32),
    /// This word stands a second time.
    Repeated(u32),
    /// More than so many members.
    TooMany(u32),
    /// More than so many bytes or steps.
    TooLarge(u32),
    /// The words of a definition or command are at fault.
    Define(DefineFault),
    /// The object can't be defined.
    Object(ObjectFault),
    /// Each word is right, and this is the first that isn't there.
    Missing(Lack),
}
