//! A peer's work in progress.

ghost use Rattle.std.specs.Prelude.{◌≡◌, true, length, None, Ok, IfOk, OnErr};
ghost use Rattle.qsg_parts.specs.Owned.{owned};
ghost use Rattle.qsg_peer.specs.declared.phases.Phase.TheVariants as phases;
ghost use Rattle.qsg_peer.specs.declared.phases.PeerTurn.TheVariants as turns;
ghost use Rattle.qsg_peer.specs.declared.phases.Stage.TheVariants as stages;
ghost use Rattle.qsg_repo.specs.Lives.{first_open};
ghost use Rattle.qsg_peer.specs.Needs.{HasLog, HasStructure, MayStepAt, MayStepOn, AreMembers, is_read_stage, is_reading, takes_memory};
ghost use Rattle.qsg_peer.specs.Reading.{life_at};
ghost use Rattle.qsg_peer.specs.Steps.{gave_up};

use crate::phases::{FailedLife, NoMemory, PeerTurn, Phase, Stage};
use crate::steps::{
    connect, counted, find, first_walk, read, resolve, search, settle, settled_stage, walking,
};
use qsg_disk::Disk;
use qsg_lists::Connection;
use qsg_logpage::page_room;
use qsg_logread::FeedError;
use qsg_manager::MarkedEntry;
use qsg_num::{LogWhy, Member, Names, PAGE_BYTES, PageNo};
use qsg_parts::Parts;
use qsg_walk::Walk;
use std::alloc::Global;
use std::marker::Model;

/// The work of a member's system task on one failed incarnation, until a step ends it.
#[derive(Drop)]
pub struct PeerWork {
    member: Member,
    phase: Phase,
    walk: Walk,
    settled: u32,
}

impl Model for PeerWork {
    ghost use Rattle.qsg_peer.specs.Works.{Work, IsSound};

    ghost Value = { Work };

    ghost view = { λ w. record { member = w.member; phase = w.phase; walk = w.walk; settled = w.settled } };

    ghost invariant = { λ w. IsSound w.phase w.walk };
}

/// Room for the page that is read at a stage. At another one there is none, and no memory is taken.
fn room(alloc: Global, stage: Stage) -> Result<Vec<u8>, NoMemory>
    ensures room { IfOk result (λ room. stage ≡ stages.Read → length room.items ≡ PAGE_BYTES) }
    ensures memory { OnErr result (is_read_stage stage ≡ true) }
{
    match stage {
        Stage::Read => match page_room(alloc) {
            Ok(room) => Ok(room),
            Err(_) => Err(NoMemory),
        },
        _ => Ok(Vec::new(alloc)),
    }
}

/// The answer of work that is given up.
fn gave_up(of: FailedLife, why: LogWhy) -> PeerTurn
    ensures { result ≡ gave_up of why }
{
    PeerTurn::GaveUp {
        member: of.member,
        incarnation: of.incarnation,
        why,
    }
}

impl PeerWork {
    ghost use Rattle.qsg_peer.specs.Works.{IsSound, new_work};
    ghost use Rattle.qsg_peer.specs.Steps.{found_phase, after_find, after_low, after_settle, Reads, Acts, GoesOn, NextPeer};

    /// The work of a member's system task, before its first step. Takes no memory.
    pub fn begin(alloc: Global, member: Member) -> PeerWork
        ensures { result ≡ new_work member }
    {
        PeerWork {
            member,
            phase: Phase::Find,
            walk: Walk::new(alloc, PageNo { number: 0 }, 0),
            settled: 0,
        }
    }

    /// What every work keeps.
    pub fn kept(&self)
        ensures { IsSound self.now.phase self.now.walk }
    {
        let _phase = &self.phase;
    }

    /// Makes the next step. Incarnations in `skip` aren't worked on: the task has given them up. A step that ends the
    /// work leaves it as it was; it isn't stepped again. Only a step that reads a page or feeds one takes memory; one
    /// that lacks memory changes nothing.
    pub fn step<D: Disk>(
        &mut self,
        alloc: Global,
        parts: &mut Parts<D>,
        skip: &Names,
    ) -> Result<PeerTurn, NoMemory>
        requires may { MayStepAt self.old.phase (owned parts.old) }
        ensures next { NextPeer skip.now self.old (owned parts.old) result self.new (owned parts.new) }
        ensures member { self.new.member ≡ self.old.member }
        ensures ready { AreMembers (owned parts.old) → IfOk result (λ turn. turn ≡ turns.More → MayStepAt self.new.phase (owned parts.new)) }
        ensures memory { OnErr result (takes_memory self.old ≡ true) }
        ensures unmade { OnErr result ((self.new ≡ self.old) × (owned parts.new ≡ owned parts.old)) }
    {
        self.make(alloc, parts, skip)
    }

    /// The same, by what it does.
    fn make<D: Disk>(
        &mut self,
        alloc: Global,
        parts: &mut Parts<D>,
        skip: &Names,
    ) -> Result<PeerTurn, NoMemory>
        requires may { MayStepAt self.old.phase (owned parts.old) }
        ensures next { NextPeer skip.now self.old (owned parts.old) result self.new (owned parts.new) }
        ensures member { self.new.member ≡ self.old.member }
    {
        match self.phase {
            Phase::Find => Ok(self.find(parts, skip)),
            Phase::Low(of) => Ok(self.low(alloc, parts, of)),
            Phase::At { of, stage } => self.go_on(alloc, parts, of, stage),
        }
    }

    /// Feeds the page that is kept, if one is, and acts. Room for a page that is read then is made first.
    fn go_on<D: Disk>(
        &mut self,
        alloc: Global,
        parts: &mut Parts<D>,
        of: FailedLife,
        stage: Stage,
    ) -> Result<PeerTurn, NoMemory>
        requires may { MayStepOn of stage (owned parts.old) }
        requires phase { self.old.phase ≡ phases.At of stage }
        ensures next { GoesOn of stage self.old (owned parts.old) result self.new (owned parts.new) }
        ensures member { self.new.member ≡ self.old.member }
    {
        let room = room(alloc, stage)?;
        match self.walk.feed() {
            Ok(_) => Ok(self.act(parts, of, stage, room)),
            Err(FeedError::Fault(why)) => Ok(gave_up(of, why)),
            Err(FeedError::NoMemory) => Err(NoMemory),
        }
    }

    /// Looks for a failed incarnation.
    fn find<D: Disk>(&mut self, parts: &Parts<D>, skip: &Names) -> PeerTurn
        ensures next { record { turn = result; work = self.new; parts = owned parts.now } ≡ after_find (found_phase (first_open skip.now (owned parts.now).repo.lives)) self.old (owned parts.now) }
    {
        match find(parts, skip) {
            Some(phase) => {
                self.phase = phase;
                PeerTurn::More
            }
            None => PeerTurn::Nothing,
        }
    }

    /// Begins the walk over the log.
    fn low<D: Disk>(&mut self, alloc: Global, parts: &Parts<D>, of: FailedLife) -> PeerTurn
        requires log { HasLog of.member (owned parts.now) }
        ensures next { record { turn = result; work = self.new; parts = owned parts.now } ≡ after_low of self.old (owned parts.now) }
    {
        self.walk = first_walk(alloc, parts, of);
        self.phase = Phase::At {
            of,
            stage: walking(parts.structures.len(), &self.walk),
        };
        PeerTurn::More
    }

    /// A step's own action, with no page kept and with room for a page that it reads.
    fn act<D: Disk>(
        &mut self,
        parts: &mut Parts<D>,
        of: FailedLife,
        stage: Stage,
        room: Vec<u8>,
    ) -> PeerTurn
        requires may { MayStepOn of stage (owned parts.old) }
        requires phase { self.old.phase ≡ phases.At of stage }
        requires fed { self.old.walk.kept ≡ None }
        requires room { stage ≡ stages.Read → length room.items ≡ PAGE_BYTES }
        ensures acts { Acts of stage self.old (owned parts.old) (Ok result) self.new (owned parts.new) }
        ensures member { self.new.member ≡ self.old.member }
    {
        match stage {
            Stage::Read => self.read(parts, of, room),
            Stage::Connect(structure) => {
                let stage = connect(parts, structure);
                self.phase = Phase::At { of, stage };
                PeerTurn::More
            }
            Stage::Search { connection, after } => {
                let stage = search(parts, of, connection, after);
                self.phase = Phase::At { of, stage };
                PeerTurn::More
            }
            Stage::Settle { connection, found } => self.settle(parts, of, connection, found),
            Stage::Resolve => {
                resolve(parts, of);
                PeerTurn::Resolved {
                    member: of.member,
                    incarnation: of.incarnation,
                    settled: self.settled,
                }
            }
        }
    }

    /// Reads the next page of the log.
    fn read<D: Disk>(&mut self, parts: &mut Parts<D>, of: FailedLife, room: Vec<u8>) -> PeerTurn
        requires room { length room.items ≡ PAGE_BYTES }
        requires log { HasLog of.member (owned parts.old) }
        requires phase { self.old.phase ≡ phases.At of stages.Read }
        ensures reads { Reads of self.old (owned parts.old) result self.new (owned parts.new) }
        ensures member { self.new.member ≡ self.old.member }
    {
        match read(parts, of, &mut self.walk, room) {
            Ok(()) => {
                self.phase = Phase::At {
                    of,
                    stage: walking(parts.structures.len(), &self.walk),
                };
                PeerTurn::More
            }
            Err(_) => gave_up(of, LogWhy::Device),
        }
    }

    /// Takes a mark off, as the reader of the log tells of its unit.
    fn settle<D: Disk>(
        &mut self,
        parts: &mut Parts<D>,
        of: FailedLife,
        connection: Connection,
        found: MarkedEntry,
    ) -> PeerTurn
        requires structure { HasStructure connection.structure (owned parts.old) }
        requires phase { self.old.phase ≡ phases.At of (stages.Settle connection found) }
        ensures next { record { turn = result; work = self.new; parts = owned parts.new } ≡ after_settle of connection found self.old (owned parts.old) }
    {
        let commits = self.walk.committed(found.unit);
        let answer = settle(parts, connection, found, commits);
        self.settled = counted(&answer, self.settled);
        self.phase = Phase::At {
            of,
            stage: settled_stage(connection, found.id, parts.structures.len(), &answer),
        };
        PeerTurn::More
    }
}

fn is_reading(phase: Phase) -> bool
    ensures { result ≡ is_reading phase }
{
    match phase {
        Phase::At {
            stage: Stage::Read,
            ..
        } => true,
        Phase::Find | Phase::Low(_) | Phase::At { .. } => false,
    }
}

fn life_at(phase: Phase) -> Option<FailedLife>
    ensures { result ≡ life_at phase }
{
    match phase {
        Phase::Find | Phase::Low(_) => None,
        Phase::At { of, .. } => Some(of),
    }
}

impl PeerWork {
    ghost use Rattle.qsg_peer.specs.Reading.{reading_of};

    /// The incarnation whose log it reads and whose marks it takes off, once its low page was asked for.
    pub fn life(&self) -> Option<FailedLife>
        ensures { result ≡ life_at self.now.phase }
    {
        life_at(self.phase)
    }

    /// How many marks it took off.
    pub fn settled(&self) -> u32
        ensures { result ≡ self.now.settled }
    {
        self.settled
    }

    /// The member whose log it is in the midst of reading: from its first read on, until it has read the last page.
    pub fn reading(&self) -> Option<Member>
        ensures { result ≡ reading_of self.now }
    {
        if is_reading(self.phase) && self.walk.keeps_page() {
            return Some(life_at(self.phase)?.member);
        }
        None
    }
}
