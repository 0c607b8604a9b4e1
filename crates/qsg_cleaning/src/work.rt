//! A cleaning in progress.

ghost use Rattle.std.specs.Prelude.{◌≡◌};
ghost use Rattle.qsg_parts.specs.Owned.{owned, Owned};
ghost use Rattle.qsg_cleaning.specs.Needs.{MayClean};
ghost use Rattle.qsg_cleaning.specs.Steps.{new_work, going_on, next_of};

use crate::phases::{CleaningTurn, Phase};
use crate::steps::{connect, forget, search};
use qsg_disk::Disk;
use qsg_lists::Connection;
use qsg_num::{Member, StructNo};
use qsg_parts::Parts;

/// The work of a member's system task on one entry of a structure that was removed, until a step ends it.
#[derive(Clone, Copy, Debug, PartialEq, Eq)]
pub struct CleaningWork {
    /// Whose system task does it, and in whose data set the entry's body stands.
    pub member: Member,
    pub structure: StructNo,
    pub phase: Phase,
}

impl CleaningWork {
    /// A cleaning of an entry of a structure, before its first step.
    pub fn begin(member: Member, structure: StructNo) -> CleaningWork
        ensures { result ≡ new_work member structure }
    {
        CleaningWork {
            member,
            structure,
            phase: Phase::Connect,
        }
    }

    /// Makes the next step. A step that ends the work leaves it as it was; it isn't stepped again. Takes no memory.
    pub fn step<D: Disk>(&mut self, parts: &mut Parts<D>) -> CleaningTurn
        requires may { MayClean self.old.member self.old.structure (owned parts.old) }
        ensures next { record { turn = result; work = self.new; parts = owned parts.new } ≡ next_of self.old (owned parts.old) }
        ensures member { self.new.member ≡ self.old.member }
        ensures structure { self.new.structure ≡ self.old.structure }
        ensures may { MayClean self.new.member self.new.structure (owned parts.new) }
    {
        self.make(parts)
    }

    /// The same, by what it does.
    fn make<D: Disk>(&mut self, parts: &mut Parts<D>) -> CleaningTurn
        requires may { MayClean self.old.member self.old.structure (owned parts.old) }
        ensures { record { turn = result; work = self.new; parts = owned parts.new } ≡ next_of self.old (owned parts.old) }
    {
        match self.phase {
            Phase::Connect => self.go_on(connect(parts, self.structure)),
            Phase::Search { epoch } => {
                let connection = self.connection(epoch);
                self.go_on(search(parts, self.member, connection))
            }
            Phase::Forget { epoch, id } => {
                forget(parts, self.member, self.connection(epoch), id);
                CleaningTurn::Done
            }
        }
    }

    /// The use of its structure in an epoch.
    fn connection(&self, epoch: u32) -> Connection
        ensures { result ≡ record { structure = self.now.structure; epoch = epoch } }
    {
        Connection {
            structure: self.structure,
            epoch,
        }
    }

    /// Goes on with the next phase, or ends where there is none.
    fn go_on(&mut self, next: Option<Phase>) -> CleaningTurn
        ensures { (p : Owned) → record { turn = result; work = self.new; parts = p } ≡ going_on next self.old p }
    {
        match next {
            Some(phase) => {
                self.phase = phase;
                CleaningTurn::More
            }
            None => CleaningTurn::Done,
        }
    }
}
