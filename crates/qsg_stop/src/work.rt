//! A STOP in progress.

ghost use Rattle.std.specs.Prelude.{◌≡◌, IfOk};
ghost use Rattle.qsg_parts.specs.Owned.{owned, HasMember};
ghost use Rattle.qsg_stop.specs.declared.phases.Phase.TheVariants as phases;
ghost use Rattle.qsg_stop.specs.declared.phases.StopTurn.TheVariants as turns;
ghost use Rattle.qsg_stop.specs.Needs.{HasSets, HasStructure, MaySave, MayStep};
ghost use Rattle.qsg_stop.specs.Steps.{begun, new_work, after_connect, HasSaved, after_tell, after_last, NextStop};

use crate::phases::{Phase, SaveCall, StopTurn};
use crate::steps::{after_structure, connect, from_structure, save, saved_phase};
use qsg_disk::Disk;
use qsg_lists::Connection;
use qsg_num::{Member, StructNo};
use qsg_parts::Parts;
use std::alloc::Global;

/// The work of a STOP behind its check, until a step ends it.
#[derive(Clone, Copy, Debug, PartialEq, Eq)]
pub struct StopWork {
    /// The member that stops. It is down since the check.
    pub member: Member,
    pub phase: Phase,
}

/// Ends a member that is to stop: it is down, its tasks hold nothing, and nothing of its log is reserved. It keeps its maps,
/// which the work that is given saves. No run of the member is in hand. Takes no memory.
pub fn begin_stop<D: Disk>(alloc: Global, parts: &mut Parts<D>, member: Member) -> StopWork
    requires member { HasMember member (owned parts.old) }
    ensures work { result ≡ new_work member (owned parts.old) }
    ensures parts { owned parts.new ≡ begun member (owned parts.old) }
    ensures may { HasSets member (owned parts.old) → MayStep result (owned parts.new) }
{
    parts.managers.end_member(alloc, member);
    parts.logs.kept(member);
    let next = parts.logs.next_page(member);
    parts.logs.restart(member, next);
    StopWork {
        member,
        phase: from_structure(parts.structures.len(), 1),
    }
}

impl StopWork {
    /// Makes the next step. A call on a device that fails is no refusal. A step that ends the work leaves it as it was; it
    /// isn't stepped again. Takes no memory.
    pub fn step<D: Disk>(&mut self, alloc: Global, parts: &mut Parts<D>) -> StopTurn
        requires may { MayStep self.old (owned parts.old) }
        ensures next { NextStop self.old (owned parts.old) result self.new (owned parts.new) }
        ensures member { self.new.member ≡ self.old.member }
        ensures may { result ≡ turns.More → MayStep self.new (owned parts.new) }
    {
        self.make(alloc, parts)
    }

    /// The same, by what it does.
    fn make<D: Disk>(&mut self, alloc: Global, parts: &mut Parts<D>) -> StopTurn
        requires may { MayStep self.old (owned parts.old) }
        ensures next { NextStop self.old (owned parts.old) result self.new (owned parts.new) }
        ensures member { self.new.member ≡ self.old.member }
    {
        match self.phase {
            Phase::Connect(structure) => {
                self.phase = connect(parts, self.member, structure);
                StopTurn::More
            }
            Phase::Save { connection, call } => self.save(parts, connection, call),
            Phase::Tell(connection) => self.tell(parts, connection),
            Phase::Last => {
                parts.repo.stopped(self.member);
                parts.datasets.clear(alloc, self.member);
                StopTurn::Stopped
            }
        }
    }

    /// Makes a call that saves the map.
    fn save<D: Disk>(
        &mut self,
        parts: &mut Parts<D>,
        connection: Connection,
        call: SaveCall,
    ) -> StopTurn
        requires sets { HasSets self.old.member (owned parts.old) }
        requires may { MaySave self.old.member connection (owned parts.old) }
        ensures saved { HasSaved connection call self.old (owned parts.old) result self.new (owned parts.new) }
    {
        let answer = save(parts, self.member, connection, call);
        self.phase = saved_phase(connection, call, answer);
        StopTurn::More
    }

    /// Tells the repository how many blocks of the data set are used.
    fn tell<D: Disk>(&mut self, parts: &mut Parts<D>, connection: Connection) -> StopTurn
        requires sets { HasSets self.old.member (owned parts.old) }
        requires may { MaySave self.old.member connection (owned parts.old) }
        ensures { record { turn = result; work = self.new; parts = owned parts.new } ≡ after_tell connection self.old (owned parts.old) }
    {
        let structure = connection.structure;
        let set = parts.datasets.set(self.member, structure);
        let used = set.used(connection.epoch);
        parts.repo.smds_stopped(self.member, structure, used);
        self.phase = after_structure(parts.structures.len(), structure);
        StopTurn::More
    }
}
