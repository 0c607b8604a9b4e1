//! What stands at a place behind the first word of a statement.

ghost use Rattle.std.specs.Prelude.{◌≡◌};
ghost use Rattle.qsg_grammar.specs.Table.{lack_of};

use crate::faults::Lack;

/// What a word at a place has to be.
#[derive(Clone, Copy, Debug, PartialEq, Eq)]
pub enum Slot {
    /// 1 to 4 letters and digits, a letter first.
    GroupName,
    /// Such a name that no member has.
    NewMember,
    /// The name of a member.
    Member,
    /// The name of a member that begins an actor.
    ActorMember,
    /// OPERATOR, as an actor.
    ActorOperator,
    /// The name of a structure.
    Structure,
    /// The name of a structure that has no FACILITY.
    NewFacility,
    /// A name in the form of a queue's, which needn't be defined.
    Queue,
    /// 1 to 4, where that task of the member before it has no section.
    NewTask,
    /// 0 to 4.
    AnyTask,
    /// A number below 2^32.
    Answers,
    /// A number.
    Turns,
}

impl Slot {
    /// What is missing where no word stands there.
    pub fn lack(self) -> Lack
        ensures { result ≡ lack_of self }
    {
        match self {
            Slot::GroupName | Slot::NewMember => Lack::Name,
            Slot::Member => Lack::Member,
            Slot::ActorMember | Slot::ActorOperator => Lack::Actor,
            Slot::Structure | Slot::NewFacility => Lack::Structure,
            Slot::Queue => Lack::Queue,
            Slot::NewTask | Slot::AnyTask | Slot::Answers => Lack::N,
            Slot::Turns => Lack::Count,
        }
    }
}
