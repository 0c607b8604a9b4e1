//! The list structures of a group, by their numbers.

ghost use Rattle.std.specs.Prelude.{◌≡◌, ◌≤◌, ◌<◌, ◌+◌, ◌*◌, ◌-◌, ◌^◌, ℕ, List, OnOk, OnErr, IfOk, IfErr, None, find, option_map, length, slice_set};
ghost use Rattle.qsg_lists.specs.Marks.{names_member};
ghost use Rattle.qsg_manager.specs.Marked.{marked_entry, marks_in, marks_of};

use crate::taken::{Room, Taken};
use qsg_lists::{
    Connection, Entry, Head, Lost, Mark, Place, Seen, Selector, Settled, Structure, WriteRefused,
};
use qsg_num::{Delivery, EntryId, Incarnation, Member, StructNo, UnitName};
use std::marker::Model;

/// An entry that a unit has marked.
#[derive(Clone, Copy, Debug, PartialEq, Eq)]
pub struct MarkedEntry {
    pub id: EntryId,
    /// The unit that the mark names.
    pub unit: UnitName,
}

/// The list structures of a group, by their numbers.
#[derive(Drop)]
pub struct Structures {
    items: Vec<Structure>,
}

impl Model for Structures {
    ghost use Rattle.std.specs.Prelude.{List};
    ghost use Rattle.qsg_lists.specs.Structures.{ListStructure};

    ghost Value = { List ListStructure };

    ghost view = { λ s. s.items.items };
}

/// The unit that an entry's mark names, if it names one.
fn marked_entry(entry: &Entry) -> Option<MarkedEntry>
    ensures { result ≡ marked_entry entry.now }
{
    match entry.mark {
        Mark::PutBy(unit) | Mark::GotBy(unit) => Some(MarkedEntry { id: entry.id, unit }),
        Mark::Visible | Mark::Cleanup => None,
    }
}

/// Whether an entry's mark names a unit of this incarnation of the member.
fn is_marked(entry: &Entry, member: Member, incarnation: Incarnation) -> bool
    ensures { result ≡ names_member member incarnation entry.now.mark }
{
    match entry.mark {
        Mark::PutBy(unit) | Mark::GotBy(unit) => {
            unit.member == member && unit.incarnation == incarnation
        }
        Mark::Visible | Mark::Cleanup => false,
    }
}

/// How many of these entries are marked so.
fn marks_in(entries: &[Entry], member: Member, incarnation: Incarnation) -> usize
    ensures { result ≡ marks_in member incarnation entries.now }
{
    entries
        .iter()
        .filter(|e| is_marked(e, member, incarnation))
        .count()
}

/// How many entries of a structure are.
fn marks_of_one(chosen: &Structure, member: Member, incarnation: Incarnation) -> u32
    ensures { result ≡ marks_in member incarnation chosen.now.entries }
{
    chosen.kept();
    marks_in(chosen.entries(), member, incarnation) as u32
}

/// How many entries of these structures are.
fn marks_of(structures: &[Structure], member: Member, incarnation: Incarnation) -> u64
    requires few { length structures.now ≤ 4 }
    ensures sum { result ≡ marks_of member incarnation structures.now }
    ensures bound { result ≤ length structures.now * 2 ^ 32 }
{
    match structures {
        [] => 0,
        [chosen, others @ ..] => {
            u64::from(marks_of_one(chosen, member, incarnation))
                + marks_of(others, member, incarnation)
        }
    }
}

impl Structures {
    ghost use Rattle.qsg_num.specs.Seats.{structure_number};
    ghost use Rattle.qsg_lists.specs.Structures.{ListStructure, IsSound, connect_answer, lost_of, unless, Answers};
    ghost use Rattle.qsg_lists.specs.Entries.{entry_at, is_above, is_cleanup_above, depth_of, first_of};
    ghost use Rattle.qsg_lists.specs.Settling.{settle_answer, settled_entry, forget_answer, deleted, revised_if_done};
    ghost use Rattle.qsg_lists.specs.Taking.{taken};
    ghost use Rattle.qsg_lists.specs.Writing.{write_refusal, next_id, written, IsWhy};
    ghost use Rattle.qsg_manager.specs.Facilities.{structure_in, with_structure};
    ghost use Rattle.qsg_manager.specs.Getting.{found_in, taken_of};
    ghost use Rattle.qsg_manager.specs.Marked.{marked_above, marks_of};

    /// Those of a `Vec`, in order of their numbers. Takes no memory.
    pub fn from_vec(items: Vec<Structure>) -> Structures
        ensures { result ≡ items.items }
    {
        Structures { items }
    }

    /// How many there are.
    pub fn len(&self) -> usize
        ensures { result ≡ length self.now }
    {
        self.items.len()
    }

    /// The structure of a number.
    pub fn structure(&self, number: StructNo) -> &Structure
        requires within { structure_number number ≤ length self.now }
        ensures { result.now ≡ structure_in number self.now }
    {
        &self.items[number.index()]
    }

    /// What a user of a structure is told at its first use.
    pub fn connect(&self, structure: StructNo) -> Result<Seen, Lost>
        requires within { structure_number structure ≤ length self.now }
        ensures { result ≡ connect_answer (structure_in structure self.now) }
    {
        self.items[structure.index()].connect()
    }

    /// The depth of a queue of a structure.
    pub fn depth(&self, connection: Connection, queue: &str) -> Result<u32, Lost>
        requires within { structure_number connection.structure ≤ length self.now }
        ensures { result ≡ unless (lost_of (structure_in connection.structure self.now) connection) (depth_of queue.now (structure_in connection.structure self.now).entries) }
    {
        self.items[connection.structure.index()].depth(connection, queue)
    }

    /// Writes an entry into a structure, marked by the unit that puts it.
    pub fn write_entry(
        &mut self,
        connection: Connection,
        unit: UnitName,
        head: Head,
        place: Place,
        max_depth: u32,
    ) -> Result<EntryId, WriteRefused>
        requires within { structure_number connection.structure ≤ length self.old }
        requires fits { (structure_in connection.structure self.old).last + 1 < 2 ^ 40 }
        ensures passed { OnOk result (write_refusal (structure_in connection.structure self.old) connection head place max_depth ≡ None) }
        ensures id { IfOk result (λ id. id ≡ next_id (structure_in connection.structure self.old)) }
        ensures after { OnOk result (self.new ≡ with_structure connection.structure (written (structure_in connection.structure self.old) unit head place) self.old) }
        ensures why { IfErr result (λ e. IsWhy e.why (write_refusal (structure_in connection.structure self.old) connection head place max_depth)) }
        ensures back { IfErr result (λ e. (e.head ≡ head) × (e.place ≡ place)) }
        ensures unchanged { OnErr result (self.new ≡ self.old) }
    {
        let chosen = &mut self.items[connection.structure.index()];
        chosen.write_entry(connection, unit, head, place, max_depth)
    }

    /// Marks the entry of a queue that is to be delivered next as got by the unit, and gives a copy of it.
    pub fn take(
        &mut self,
        connection: Connection,
        unit: UnitName,
        room: Room,
        order: Delivery,
        select: &Selector,
    ) -> Result<Option<Taken>, Lost>
        requires within { structure_number connection.structure ≤ length self.old }
        ensures answer { result ≡ unless (lost_of (structure_in connection.structure self.old) connection) (option_map taken_of (found_in connection room order select.now self.old)) }
        ensures after { self.new ≡ with_structure connection.structure (taken (structure_in connection.structure self.old) connection unit room order select.now) self.old }
    {
        let chosen = &mut self.items[connection.structure.index()];
        Structures::take_from(chosen, connection, unit, room, order, select)
    }

    /// The same of one structure.
    fn take_from(
        chosen: &mut Structure,
        connection: Connection,
        unit: UnitName,
        room: Room,
        order: Delivery,
        select: &Selector,
    ) -> Result<Option<Taken>, Lost>
        ensures answer { result ≡ unless (lost_of chosen.old connection) (option_map taken_of (first_of room order select.now chosen.old.entries)) }
        ensures after { chosen.new ≡ taken chosen.old connection unit room order select.now }
    {
        match chosen.take(connection, unit, room.queue(), order, select) {
            Ok(Some(entry)) => Ok(Some(room.fill(entry))),
            Ok(None) => Ok(None),
            Err(lost) => Err(lost),
        }
    }

    /// The entry of an id of a structure.
    pub fn entry_at(&self, connection: Connection, id: EntryId) -> Result<Option<&Entry>, Lost>
        requires within { structure_number connection.structure ≤ length self.now }
        ensures { Answers result (lost_of (structure_in connection.structure self.now) connection) (entry_at id (structure_in connection.structure self.now).entries) }
    {
        self.items[connection.structure.index()].entry(connection, id)
    }

    /// The entry of least id above an id.
    pub fn entry_after(&self, connection: Connection, id: EntryId) -> Result<Option<&Entry>, Lost>
        requires within { structure_number connection.structure ≤ length self.now }
        ensures { Answers result (lost_of (structure_in connection.structure self.now) connection) (find (is_above id) (structure_in connection.structure self.now).entries) }
    {
        self.items[connection.structure.index()].entry_after(connection, id)
    }

    /// The same among removed entries whose blocks are this owner's.
    pub fn cleanup_after(
        &self,
        connection: Connection,
        owner: Member,
        id: EntryId,
    ) -> Result<Option<&Entry>, Lost>
        requires within { structure_number connection.structure ≤ length self.now }
        ensures { Answers result (lost_of (structure_in connection.structure self.now) connection) (find (is_cleanup_above owner id) (structure_in connection.structure self.now).entries) }
    {
        self.items[connection.structure.index()].cleanup_after(connection, owner, id)
    }

    /// The entry of least id above an id whose mark names a unit of this incarnation of the member, and that unit.
    pub fn marked_after(
        &self,
        connection: Connection,
        member: Member,
        incarnation: Incarnation,
        id: EntryId,
    ) -> Result<Option<MarkedEntry>, Lost>
        requires within { structure_number connection.structure ≤ length self.now }
        ensures { result ≡ unless (lost_of (structure_in connection.structure self.now) connection) (marked_above member incarnation id (structure_in connection.structure self.now).entries) }
    {
        let chosen = &self.items[connection.structure.index()];
        Structures::marked_in(chosen, connection, member, incarnation, id)
    }

    /// The same of one structure.
    fn marked_in(
        chosen: &Structure,
        connection: Connection,
        member: Member,
        incarnation: Incarnation,
        id: EntryId,
    ) -> Result<Option<MarkedEntry>, Lost>
        ensures { result ≡ unless (lost_of chosen.now connection) (marked_above member incarnation id chosen.now.entries) }
    {
        match chosen.marked_after(connection, member, incarnation, id) {
            Ok(Some(entry)) => Ok(marked_entry(entry)),
            Ok(None) => Ok(None),
            Err(lost) => Err(lost),
        }
    }

    /// How many entries of all structures have a mark that names a unit of this incarnation of the member.
    pub fn count_marks(&self, member: Member, incarnation: Incarnation) -> u64
        requires few { length self.now ≤ 4 }
        ensures { result ≡ marks_of member incarnation self.now }
    {
        marks_of(self.items.as_slice(), member, incarnation)
    }

    /// What every structure keeps.
    pub fn kept(&self, structure: StructNo)
        requires within { structure_number structure ≤ length self.now }
        ensures { IsSound (structure_in structure self.now) }
    {
        self.items[structure.index()].kept();
    }

    /// Takes the mark of a unit off an entry.
    pub fn settle(
        &mut self,
        connection: Connection,
        id: EntryId,
        unit: UnitName,
        commits: bool,
    ) -> Result<Settled, Lost>
        requires within { structure_number connection.structure ≤ length self.old }
        ensures answer { result ≡ settle_answer (structure_in connection.structure self.old) connection id unit }
        ensures after { self.new ≡ with_structure connection.structure (revised_if_done result id (settled_entry commits) (structure_in connection.structure self.old)) self.old }
    {
        let chosen = &mut self.items[connection.structure.index()];
        chosen.settle(connection, id, unit, commits)
    }

    /// Deletes a removed entry.
    pub fn forget(&mut self, connection: Connection, id: EntryId) -> Result<Settled, Lost>
        requires within { structure_number connection.structure ≤ length self.old }
        ensures answer { result ≡ forget_answer (structure_in connection.structure self.old) connection id }
        ensures after { self.new ≡ with_structure connection.structure (revised_if_done result id deleted (structure_in connection.structure self.old)) self.old }
    {
        let chosen = &mut self.items[connection.structure.index()];
        chosen.forget(connection, id)
    }
}
