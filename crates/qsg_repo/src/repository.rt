//! The repository and its calls.

ghost use Rattle.std.specs.Prelude.{◌≡◌, ℕ, ◌+◌, ◌^◌, ◌<◌, ◌≤◌, IsTrue, IfOk, not, true, false, length, max, Some};

use crate::lives::{
    Fate, Life, count_of, fail, first_open, has_failed, is_failed_life, resolve, stop,
};
use crate::needs::{Hold, Holds, least_held_by_all, noted_page, set_hold};
use crate::notes::Note;
use crate::statuses::{Access, DataSets, NEW_SMDS, Smds, make_dirty, make_done};
use qsg_num::{EntryId, Incarnation, Member, Names, PageNo, StructNo, TaskNo, UnitName};
use std::alloc::{AllocError, Global};
use std::marker::Model;

const FIRST_PAGE: PageNo = PageNo { number: 0 };

const NO_HOLDS: Holds = Holds { tasks: [None; 5] };

const NEW_DATA_SETS: DataSets = DataSets {
    members: [NEW_SMDS; 8],
};

const ALL_STRUCTURES: [StructNo; 4] = [
    StructNo::One,
    StructNo::Two,
    StructNo::Three,
    StructNo::Four,
];

/// What all members share besides list structures and devices. Each call is one step, and outlives crashes and
/// structure loss. Contracts see a repository as its tables.
#[derive(Drop)]
pub struct Repo {
    members: u8,
    structures: u8,
    recover: [bool; 4],
    starts: u32,
    lows: [PageNo; 8],
    notes: [Option<Note>; 4],
    lives: Vec<Life>,
    holds: [Holds; 8],
    smds: [DataSets; 4],
}

impl Model for Repo {
    ghost use Rattle.std.specs.Prelude.{◌<◌, ◌≤◌, ◌^◌, length, vec_capacity};
    ghost use Rattle.qsg_repo.specs.Tables.{Repository};

    ghost Value = { Repository };

    ghost view = { λ repo. record {
      members = repo.members;
      structures = repo.structures;
      recover = repo.recover;
      starts = repo.starts;
      lows = repo.lows;
      notes = repo.notes;
      lives = repo.lives.items;
      holds = repo.holds;
      smds = repo.smds;
    } };

    ghost invariant = { λ repo. record {
      room : repo.starts ≤ vec_capacity repo.lives;
      given : length repo.lives.items ≤ repo.starts;
      small : repo.starts < 2 ^ 32;
    } };
}

impl Repo {
    ghost use Rattle.qsg_repo.specs.Tables.{low_of, note_at, hold_at, smds_at, smds_of, recovers, with_smds, with_hold};
    ghost use Rattle.qsg_repo.specs.Calls.{new_repository, has_failed, published, is_older_than, noted, noted_epoch, purge_epoch, purged, crashed, is_unresolved, resolved, next_incarnation, started, stopped, smds_used, smds_dirty, smds_done, smds_stopped, held, note_held, lows_of_note, released};
    ghost use Rattle.qsg_repo.specs.Statuses.{is_failed_smds, used_smds};
    ghost use Rattle.qsg_repo.specs.Lives.{first_open};
    ghost use Rattle.qsg_repo.specs.Keeping.{keep, least, noted_pages};
    ghost use Rattle.std.specs.List.{list_any};

    /// The repository of a group with so many members and structures. `recover` tells of each structure whether
    /// its messages may be persistent, and `starts` how many incarnations will be given at most. It takes all the
    /// memory that its calls need.
    pub fn new(
        alloc: Global,
        members: u8,
        structures: u8,
        recover: [bool; 4],
        starts: u32,
    ) -> Result<Repo, AllocError>
        ensures { IfOk result (λ repo. repo ≡ new_repository members structures recover starts) }
    {
        let lives = Vec::with_capacity(alloc, starts as usize)?;
        Ok(Repo {
            members,
            structures,
            recover,
            starts,
            lows: [FIRST_PAGE; 8],
            notes: [None; 4],
            lives,
            holds: [NO_HOLDS; 8],
            smds: [NEW_DATA_SETS; 4],
        })
    }

    /// The low page of each member.
    pub fn lows(&self) -> [PageNo; 8]
        ensures { result ≡ self.now.lows }
    {
        self.lows
    }

    /// The low page of a member: the page of its log from which its failed incarnations are resolved.
    pub fn low(&self, member: Member) -> PageNo
        ensures { result ≡ low_of member self.now }
    {
        self.lows[member.index()]
    }

    /// A member that is up tells its low page, which then is the larger of the present one and this. It answers
    /// false, with nothing changed, exactly where an earlier incarnation of that member is failed and unresolved.
    pub fn publish_low(&mut self, member: Member, page: PageNo) -> bool
        ensures value { result ≡ not (has_failed member self.old) }
        ensures after { self.new ≡ published member page self.old }
    {
        if has_failed(&self.lives, member) {
            return false;
        }
        let low = self.low(member);
        self.lows[member.index()] = PageNo {
            number: low.number.max(page.number),
        };
        true
    }

    /// What is kept of the last backup of a structure.
    pub fn note(&self, structure: StructNo) -> Option<Note>
        ensures { result ≡ note_at structure self.now }
    {
        self.notes[structure.index()]
    }

    /// Keeps the note of a BACKUP, and drops the hold of its task. It answers false, and the kept note stays,
    /// exactly where that one's top is larger.
    pub fn put_note(
        &mut self,
        member: Member,
        task: TaskNo,
        structure: StructNo,
        note: Note,
    ) -> bool
        requires { hold_at member task self.old ≡ Some note.low }
        ensures value { result ≡ not (is_older_than (note_at structure self.old) note) }
        ensures after { self.new ≡ noted member task structure note self.old }
    {
        self.release(member, task);
        if let Some(kept) = self.note(structure) {
            if note.top < kept.top {
                return false;
            }
        }
        self.notes[structure.index()] = Some(note);
        true
    }

    /// Keeps the note of a purge: nothing of the structure is needed of any log. It answers the epoch that the
    /// structure gets: above `epoch` and above that of the kept note's top.
    pub fn purge_note(&mut self, structure: StructNo, epoch: u32, backup: UnitName) -> u32
        requires { purge_epoch structure epoch self.old < 2 ^ 24 }
        ensures value { result ≡ purge_epoch structure epoch self.old }
        ensures after { self.new ≡ purged structure epoch backup self.old }
    {
        let kept = match self.note(structure) {
            Some(note) => note.top.epoch(),
            None => 0,
        };
        let next = 1 + epoch.max(kept);
        self.notes[structure.index()] = Some(Note {
            backup,
            from: FIRST_PAGE,
            until: FIRST_PAGE,
            top: EntryId::of(next, 0).unwrap(),
            low: self.lows,
        });
        next
    }

    /// An incarnation crashed: it is failed and unresolved, and all holds of its member go. One that was never
    /// given, or that crashed before, stays as it was.
    pub fn crashed(&mut self, member: Member, incarnation: Incarnation)
        ensures { self.new ≡ crashed member incarnation self.old }
    {
        fail(&mut self.lives, member, incarnation);
        self.holds[member.index()] = NO_HOLDS;
    }

    /// The incarnations that were given, in the order in which they were.
    pub fn lives(&self) -> &[Life]
        ensures { result.now ≡ self.now.lives }
    {
        self.lives.as_slice()
    }

    /// The least failed and unresolved incarnation, by member and then by number, that isn't in `skip`.
    pub fn first_failed(&self, skip: &Names) -> Option<(Member, Incarnation)>
        ensures { result ≡ first_open skip.now self.now.lives }
    {
        first_open(&self.lives, skip.as_slice())
    }

    /// No mark of that incarnation's units stands any more. It answers whether it was failed and unresolved.
    pub fn resolve(&mut self, member: Member, incarnation: Incarnation) -> bool
        ensures value { result ≡ is_unresolved member incarnation self.old }
        ensures after { self.new ≡ resolved member incarnation self.old }
    {
        let was_failed = is_failed_life(&self.lives, member, incarnation);
        resolve(&mut self.lives, member, incarnation);
        was_failed
    }

    /// Gives a member its next incarnation, from 1.
    pub fn started(&mut self, member: Member) -> Incarnation
        requires { length self.old.lives < self.old.starts }
        ensures value { result ≡ next_incarnation member self.old }
        ensures after { self.new ≡ started member self.old }
    {
        let incarnation = Incarnation {
            number: 1 + count_of(&self.lives, member) as u32,
        };
        let life = Life {
            member,
            incarnation,
            fate: Fate::Up,
        };
        let _ = self.lives.push(life);
        incarnation
    }

    /// A member stopped: its incarnation is no longer up.
    pub fn stopped(&mut self, member: Member)
        ensures { self.new ≡ stopped member self.old }
    {
        stop(&mut self.lives, member);
    }

    /// Access and status of a data set.
    pub fn smds(&self, member: Member, structure: StructNo) -> Smds
        ensures { result ≡ smds_at member structure self.now }
    {
        self.smds[structure.index()].members[member.index()]
    }

    /// Sets access and status of a data set.
    pub fn set_smds(&mut self, member: Member, structure: StructNo, to: Smds)
        ensures { self.new ≡ with_smds member structure to self.old }
    {
        self.smds[structure.index()].members[member.index()] = to;
    }

    /// Access and status of a structure's data sets, one for each member.
    pub fn smds_all(&self, structure: StructNo) -> [Smds; 8]
        ensures { result ≡ smds_of structure self.now }
    {
        self.smds[structure.index()].members
    }

    /// A member is about to use its data set: answers the access that it has. An enabled data set that is new,
    /// empty or recovered becomes active.
    pub fn smds_use(&mut self, member: Member, structure: StructNo) -> Access
        ensures value { result ≡ (smds_at member structure self.old).access }
        ensures after { self.new ≡ smds_used member structure self.old }
    {
        let smds = self.smds(member, structure);
        self.set_smds(member, structure, smds.used());
        smds.access
    }

    /// A RECOVER of the structure begins: each failed data set of it is now in recovery. It answers whether there
    /// is one.
    pub fn smds_dirty(&mut self, structure: StructNo) -> bool
        ensures value { result ≡ list_any is_failed_smds (smds_of structure self.old) }
        ensures after { self.new ≡ smds_dirty structure self.old }
    {
        make_dirty(&mut self.smds[structure.index()].members)
    }

    /// That RECOVER ends: each data set in recovery is recovered and enabled, or failed again. The hold of its
    /// task goes.
    pub fn smds_done(&mut self, member: Member, task: TaskNo, structure: StructNo, recovered: bool)
        ensures { self.new ≡ smds_done member task structure recovered self.old }
    {
        self.release(member, task);
        make_done(&mut self.smds[structure.index()].members, recovered);
    }

    /// A member stopped with so many blocks of its data set used: with none, an active data set is empty.
    pub fn smds_stopped(&mut self, member: Member, structure: StructNo, used: u32)
        ensures { self.new ≡ smds_stopped member structure used self.old }
    {
        let smds = self.smds(member, structure);
        self.set_smds(member, structure, smds.stopped(used));
    }

    /// The first page of a member's log that may still be needed; pages before it may be written over. It is the
    /// least of the member's low page, its page in the note of each structure whose messages may be persistent
    /// (0 where there is no note), and its page in each hold.
    pub fn keep(&self, member: Member) -> PageNo
        ensures { result.number ≡ keep member self.now }
    {
        let low = self.low(member);
        let noted = self.least_noted(member, low.number);
        PageNo {
            number: least_held_by_all(&self.holds, member, noted),
        }
    }

    /// Answers the low page of each member, and keeps these as the task's hold.
    pub fn hold(&mut self, member: Member, task: TaskNo) -> [PageNo; 8]
        ensures value { result ≡ self.old.lows }
        ensures after { self.new ≡ held member task self.old }
        ensures found { hold_at member task self.new ≡ Some self.old.lows }
    {
        let lows = self.lows;
        self.set_hold(member, task, Some(lows));
        lows
    }

    /// Answers the note of a structure whose messages may be persistent, and keeps its low pages, or the first page
    /// of each log without a note, as the task's hold.
    pub fn note_hold(&mut self, member: Member, task: TaskNo, structure: StructNo) -> Option<Note>
        requires { IsTrue (recovers structure self.old) }
        ensures value { result ≡ note_at structure self.old }
        ensures after { self.new ≡ note_held member task structure self.old }
        ensures found { hold_at member task self.new ≡ Some (lows_of_note (note_at structure self.old)) }
    {
        let note = self.note(structure);
        let lows = match note {
            Some(note) => note.low,
            None => [FIRST_PAGE; 8],
        };
        self.set_hold(member, task, Some(lows));
        note
    }

    /// Drops the task's hold.
    pub fn release(&mut self, member: Member, task: TaskNo)
        ensures { self.new ≡ released member task self.old }
    {
        self.set_hold(member, task, None);
    }

    fn set_hold(&mut self, member: Member, task: TaskNo, hold: Hold)
        ensures after { self.new ≡ with_hold member task hold self.old }
        ensures found { hold_at member task self.new ≡ hold }
    {
        set_hold(&mut self.holds, member, task, hold);
    }

    /// Whether the group has this structure, and its messages may be persistent.
    fn recovers(&self, structure: StructNo) -> bool
        ensures { result ≡ recovers structure self.now }
    {
        structure.get() <= self.structures && self.recover[structure.index()]
    }

    /// The least of a page and the member's pages in the notes that RECOVER would read.
    fn least_noted(&self, member: Member, first: u32) -> u32
        ensures { result ≡ least first (noted_pages member self.now) }
    {
        let mut least = first;
        for structure in ALL_STRUCTURES {
            if self.recovers(structure) {
                least = least.min(noted_page(self.note(structure), member));
            }
        }
        least
    }
}
