//! The list structure and its commands.

ghost use Rattle.std.specs.Prelude.{◌≡◌, ◌≢◌, ℕ, ◌+◌, ◌*◌, ◌^◌, ◌<◌, ◌≤◌, List, [], ◌∷◌, ◌++◌, length, Option, Some, None, find, IfOk, IfErr, OnOk, OnErr, option_copied, option_and_then, slice_get};
ghost use Rattle.qsg_lists.specs.Recovering.{recover_fault, is_live};

use crate::parts::{
    Connection, Entry, Head, Lost, Mark, NotActive, Place, RecoverFault, Seen, Selector, Settled,
    State, WriteRefused, WriteWhy,
};
use crate::{change, search};
use qsg_num::{Delivery, EntryId, Incarnation, Member, StructNo, UnitName};
use std::alloc::Global;
use std::marker::Model;

/// A list structure: messages of shared queues, which all members put and get. It holds so many elements, and it
/// serves its users in one epoch after another: each loss begins the next. In each epoch it numbers its entries
/// from 1, so that no id is given twice.
///
/// Every call is one atomic command. A refusal changes nothing.
#[derive(Debug, Drop)]
pub struct Structure {
    number: StructNo,
    state: State,
    epoch: u32,
    last: u64,
    capacity: u32,
    entries: Vec<Entry>,
}

impl Model for Structure {
    ghost use Rattle.qsg_lists.specs.Structures.{ListStructure, IsSound};

    ghost Value = { ListStructure };

    ghost view = { λ s. record { number = s.number; state = s.state; epoch = s.epoch; last = s.last; capacity = s.capacity; entries = s.entries.items } };

    ghost invariant = { λ s. IsSound (record { number = s.number; state = s.state; epoch = s.epoch; last = s.last; capacity = s.capacity; entries = s.entries.items }) };
}

impl Structure {
    ghost use Rattle.std.specs.Prelude.{⊤, true};
    ghost use Rattle.std.specs.Borrow.{sem, follows_so};
    ghost use Rattle.std.specs.List.{AllByRecursion};
    ghost use mathlib.Core.Option.{none};
    ghost use Rattle.qsg_num.specs.Ids.{id_at};
    ghost use Rattle.qsg_lists.specs.declared.parts.Entry.{Entry};
    ghost use Rattle.qsg_lists.specs.declared.parts.State.TheVariants.{Active};
    ghost use Rattle.qsg_lists.specs.declared.parts.WriteWhy.TheVariants.{NoMemory};
    ghost use Rattle.qsg_lists.specs.declared.parts.Mark.TheVariants.{Visible};
    ghost use Rattle.qsg_lists.specs.contracts.facility.Structure.{the_row};
    ghost use Rattle.qsg_lists.specs.Entries.{entry_at, is_above, is_marked_above, is_cleanup_above, cost_of, depth_of, used_of};
    ghost use Rattle.qsg_lists.specs.Structures.{IsSound, lost_of, connection_of, connect_answer, unless, Answers};
    ghost use Rattle.qsg_lists.specs.Settling.{settle_answer, forget_answer, revised_if_done, settled_entry, deleted};
    ghost use Rattle.qsg_lists.specs.Taking.{taken, take_answer};
    ghost use Rattle.qsg_lists.specs.Writing.{write_refusal, room_refusal, free_of, next_id, written, IsWhy, lost, lost_if, is_active_in};
    ghost use Rattle.qsg_lists.specs.Recovering.{begun, is_recovering, restore_refusal, restored, recovered, abandoned};

    /// An active structure of this number and so many elements: empty, in epoch 0. Takes no memory.
    pub fn new(alloc: Global, number: StructNo, capacity: u32) -> Structure
        ensures { result ≡ record { number = number; state = Active; epoch = 0; last = 0; capacity = capacity; entries = [] } }
    {
        Structure {
            number,
            state: State::Active,
            epoch: 0,
            last: 0,
            capacity,
            entries: Vec::new(alloc),
        }
    }

    /// What every structure keeps: its entries rise by id, none is above the last id that was given, and they take
    /// no more elements than there are.
    pub fn kept(&self)
        ensures { IsSound self.now }
    {
        let _number = &self.number;
    }

    /// Its state and its epoch.
    pub fn state(&self) -> (State, u32)
        ensures { result ≡ (self.now.state, self.now.epoch) }
    {
        (self.state, self.epoch)
    }

    /// The elements in use and those in all, in any state.
    pub fn size(&self) -> (u32, u32)
        ensures { result ≡ (used_of self.now.entries, self.now.capacity) }
    {
        let capacity = self.capacity;
        (search::used(&self.entries), capacity)
    }

    /// The entry of least id above an id, in any state.
    pub fn any_after(&self, id: EntryId) -> Option<&Entry>
        ensures { option_copied result ≡ find (is_above id) self.now.entries }
    {
        search::find_above(&self.entries, id)
    }

    /// Its entries, in order of their ids, in any state.
    pub fn entries(&self) -> &[Entry]
        ensures { result.now ≡ self.now.entries }
    {
        self.entries.as_slice()
    }

    /// Begins to use the structure in its present epoch. Lost exactly where it isn't active.
    pub fn connect(&self) -> Result<Seen, Lost>
        ensures { result ≡ connect_answer self.now }
    {
        if !matches!(self.state, State::Active) {
            return Err(self.told());
        }
        let (used, capacity) = self.size();
        Ok(Seen {
            connection: self.connection(),
            used,
            capacity,
            top: self.top(),
        })
    }

    /// The use of the structure in its present epoch.
    fn connection(&self) -> Connection
        ensures { result ≡ connection_of self.now }
    {
        Connection {
            structure: self.number,
            epoch: self.epoch,
        }
    }

    /// What a user that isn't served is told.
    fn told(&self) -> Lost
        ensures { result ≡ record { state = self.now.state; epoch = self.now.epoch } }
    {
        Lost {
            state: self.state,
            epoch: self.epoch,
        }
    }

    /// The id that was given last.
    fn top(&self) -> EntryId
        ensures { result ≡ id_at self.now.epoch self.now.last }
    {
        EntryId::of(self.epoch, self.last).unwrap()
    }

    /// Why a user of this connection isn't served, if it isn't.
    fn lost(&self, connection: Connection) -> Option<Lost>
        ensures { result ≡ lost_of self.now connection }
    {
        if matches!(self.state, State::Active) && connection.epoch == self.epoch {
            None
        } else {
            Some(self.told())
        }
    }

    /// The entry of an id.
    pub fn entry(&self, connection: Connection, id: EntryId) -> Result<Option<&Entry>, Lost>
        ensures { Answers result (lost_of self.now connection) (entry_at id self.now.entries) }
    {
        match self.lost(connection) {
            Some(lost) => Err(lost),
            None => Ok(search::find_entry(&self.entries, id)),
        }
    }

    /// The entry of least id above an id.
    pub fn entry_after(&self, connection: Connection, id: EntryId) -> Result<Option<&Entry>, Lost>
        ensures { Answers result (lost_of self.now connection) (find (is_above id) self.now.entries) }
    {
        match self.lost(connection) {
            Some(lost) => Err(lost),
            None => Ok(search::find_above(&self.entries, id)),
        }
    }

    /// The same among entries whose mark names this incarnation of the member.
    pub fn marked_after(
        &self,
        connection: Connection,
        member: Member,
        incarnation: Incarnation,
        id: EntryId,
    ) -> Result<Option<&Entry>, Lost>
        ensures { Answers result (lost_of self.now connection) (find (is_marked_above member incarnation id) self.now.entries) }
    {
        match self.lost(connection) {
            Some(lost) => Err(lost),
            None => Ok(search::find_marked_above(&self.entries, member, incarnation, id)),
        }
    }

    /// The same among removed entries whose blocks are this owner's.
    pub fn cleanup_after(
        &self,
        connection: Connection,
        owner: Member,
        id: EntryId,
    ) -> Result<Option<&Entry>, Lost>
        ensures { Answers result (lost_of self.now connection) (find (is_cleanup_above owner id) self.now.entries) }
    {
        match self.lost(connection) {
            Some(lost) => Err(lost),
            None => Ok(search::find_cleanup_above(&self.entries, owner, id)),
        }
    }

    /// How many entries the queue has, but for removed ones.
    pub fn depth(&self, connection: Connection, queue: &str) -> Result<u32, Lost>
        ensures { result ≡ unless (lost_of self.now connection) (depth_of queue.now self.now.entries) }
    {
        match self.lost(connection) {
            Some(lost) => Err(lost),
            None => Ok(self.queue_depth(queue)),
        }
    }

    fn queue_depth(&self, queue: &str) -> u32
        ensures { result ≡ depth_of queue.now self.now.entries }
    {
        let _capacity = self.capacity;
        search::depth(&self.entries, queue) as u32
    }

    /// Adds an entry that a unit of work puts, with the next id of the epoch. Its queue is to have at most
    /// `max_depth` entries then. Looked at in order: whether the user is served, the elements that it needs, the
    /// depth of its queue, and then memory.
    pub fn write_entry(
        &mut self,
        connection: Connection,
        unit: UnitName,
        head: Head,
        place: Place,
        max_depth: u32,
    ) -> Result<EntryId, WriteRefused>
        requires { self.old.last + 1 < 2 ^ 40 }
        ensures passed { OnOk result (write_refusal self.old connection head place max_depth ≡ None) }
        ensures id { IfOk result (λ id. id ≡ next_id self.old) }
        ensures after { OnOk result (self.new ≡ written self.old unit head place) }
        ensures why { IfErr result (λ e. IsWhy e.why (write_refusal self.old connection head place max_depth)) }
        ensures back { IfErr result (λ e. (e.head ≡ head) × (e.place ≡ place)) }
        ensures unchanged { OnErr result (self.new ≡ self.old) }
    {
        match self.write_refusal(connection, &head, &place, max_depth) {
            Some(why) => Err(WriteRefused { why, head, place }),
            None => self.append(unit, head, place),
        }
    }

    /// Why a write is refused, while memory is found.
    fn write_refusal(
        &self,
        connection: Connection,
        head: &Head,
        place: &Place,
        max_depth: u32,
    ) -> Option<WriteWhy>
        ensures { result ≡ write_refusal self.now connection head.now place.now max_depth }
    {
        match self.lost(connection) {
            Some(lost) => Some(WriteWhy::Lost(lost)),
            None => self.room_refusal(head, place, max_depth),
        }
    }

    fn room_refusal(&self, head: &Head, place: &Place, max_depth: u32) -> Option<WriteWhy>
        ensures { result ≡ room_refusal self.now head.now place.now max_depth }
    {
        let need = place.cost();
        let free = self.free();
        if free < need {
            return Some(WriteWhy::Full { need, free });
        }
        let depth = self.queue_depth(head.queue.as_str());
        if max_depth <= depth {
            return Some(WriteWhy::QueueFull { depth });
        }
        None
    }

    /// The elements that are free.
    fn free(&self) -> u32
        ensures { result ≡ free_of self.now }
    {
        self.capacity - search::used(&self.entries)
    }

    /// Adds an entry for which there is room.
    fn append(&mut self, unit: UnitName, head: Head, place: Place) -> Result<EntryId, WriteRefused>
        requires next { self.old.last + 1 < 2 ^ 40 }
        requires room { cost_of place ≤ free_of self.old }
        ensures ok { IfOk result (λ id. (id ≡ next_id self.old) × (self.new ≡ written self.old unit head place)) }
        ensures refused { IfErr result (λ e. (e.why ≡ NoMemory) × (e.head ≡ head) × (e.place ≡ place) × (self.new ≡ self.old)) }
    {
        let id = self.next_id();
        let entry = Entry {
            id,
            head,
            place,
            mark: Mark::PutBy(unit),
        };
        match self.entries.push(entry) {
            Ok(()) => {
                self.last += 1;
                Ok(id)
            }
            Err(refused) => {
                let Entry { head, place, .. } = refused.value;
                Err(WriteRefused {
                    why: WriteWhy::NoMemory,
                    head,
                    place,
                })
            }
        }
    }

    fn next_id(&self) -> EntryId
        requires { self.now.last + 1 < 2 ^ 40 }
        ensures { result ≡ next_id self.now }
    {
        EntryId::of(self.epoch, self.last + 1).unwrap()
    }

    /// Marks the entry of the queue that is to be delivered next as got by the unit, and lends it: the visible one
    /// that has what is asked for, and is least by falling priority and then id, or by id alone. None exactly where
    /// there is none.
    pub fn take(
        &mut self,
        connection: Connection,
        unit: UnitName,
        queue: &str,
        order: Delivery,
        select: &Selector,
    ) -> Result<Option<&Entry>, Lost>
        ensures* after { sem 𝓛 (follows_so the_row the_row self.entry.ghost_name none (λ _ _. ⊤) (λ v. v ≡ taken self.old connection unit queue.now order select.now)) }
        ensures answer { Answers result (lost_of self.old connection) (take_answer self.old unit queue.now order select.now) }
    {
        let place = self.mark_first(connection, unit, queue, order, select)?;
        Ok(self.lend(place))
    }

    /// Marks the entry that is to be delivered next, and answers its place.
    fn mark_first(
        &mut self,
        connection: Connection,
        unit: UnitName,
        queue: &str,
        order: Delivery,
        select: &Selector,
    ) -> Result<Option<usize>, Lost>
        ensures after { self.new ≡ taken self.old connection unit queue.now order select.now }
        ensures ok { IfOk result (λ place. (lost_of self.old connection ≡ None)
            × (option_and_then (λ i. slice_get self.new.entries i) place ≡ take_answer self.old unit queue.now order select.now)) }
        ensures lost { IfErr result (λ lost. lost_of self.old connection ≡ Some lost) }
    {
        match self.lost(connection) {
            Some(lost) => Err(lost),
            None => Ok(change::take(&mut self.entries, unit, queue, order, select)),
        }
    }

    fn lend(&self, place: Option<usize>) -> Option<&Entry>
        ensures { option_copied result ≡ option_and_then (λ i. slice_get self.now.entries i) place }
    {
        self.entries.get(place?)
    }

    /// Commits or backs out what a unit did to an entry. Done exactly where its mark names that unit. What was put
    /// and is committed, and what was got and is backed out, is visible then. Else the entry is removed: one with its
    /// body inside is deleted, and one with its body outside stays, to be forgotten.
    pub fn settle(
        &mut self,
        connection: Connection,
        id: EntryId,
        unit: UnitName,
        commits: bool,
    ) -> Result<Settled, Lost>
        ensures answer { result ≡ settle_answer self.old connection id unit }
        ensures after { self.new ≡ revised_if_done result id (settled_entry commits) self.old }
    {
        match self.lost(connection) {
            Some(lost) => Err(lost),
            None => Ok(change::settle(&mut self.entries, id, &unit, commits)),
        }
    }

    /// Deletes a removed entry, once its blocks are to be freed. Done exactly where its mark is Cleanup.
    pub fn forget(&mut self, connection: Connection, id: EntryId) -> Result<Settled, Lost>
        ensures answer { result ≡ forget_answer self.old connection id }
        ensures after { self.new ≡ revised_if_done result id deleted self.old }
    {
        match self.lost(connection) {
            Some(lost) => Err(lost),
            None => Ok(change::forget(&mut self.entries, id)),
        }
    }

    /// Loses the structure with all its entries: it is failed, in the next epoch. NotActive exactly where it isn't
    /// active.
    pub fn lose(&mut self) -> Result<(), NotActive>
        requires { self.old.epoch + 1 < 2 ^ 24 }
        ensures ok { OnOk result ((self.old.state ≡ Active) × (self.new ≡ lost self.old)) }
        ensures refused { IfErr result (λ e. (self.old.state ≢ Active) × (e.state ≡ self.old.state) × (self.new ≡ self.old)) }
    {
        if !matches!(self.state, State::Active) {
            return Err(NotActive { state: self.state });
        }
        self.state = State::Failed;
        self.epoch += 1;
        self.last = 0;
        self.entries.clear();
        Ok(())
    }

    /// Does the same exactly where it is active with this epoch, and answers whether it did.
    pub fn lose_at(&mut self, epoch: u32) -> bool
        requires { self.old.epoch + 1 < 2 ^ 24 }
        ensures answer { result ≡ is_active_in epoch self.old }
        ensures after { self.new ≡ lost_if result self.old }
    {
        if self.epoch == epoch {
            self.lose().is_ok()
        } else {
            false
        }
    }

    /// Begins a recovery by this incarnation of a member, empty. NotFailed exactly where the structure is active;
    /// InRecover exactly where it is in recovery by an incarnation that `live` has at its member's place, from
    /// member 1.
    pub fn begin_recover(
        &mut self,
        by: Member,
        incarnation: Incarnation,
        live: &[Option<Incarnation>; 8],
    ) -> Result<Connection, RecoverFault>
        ensures ok { IfOk result (λ c. (recover_fault live.now self.old.state ≡ None)
            × (c ≡ connection_of self.old)
            × (self.new ≡ begun self.old by incarnation)) }
        ensures refused { IfErr result (λ e. (recover_fault live.now self.old.state ≡ Some e) × (self.new ≡ self.old)) }
    {
        if let Some(fault) = fault_of(self.state, live) {
            return Err(fault);
        }
        self.state = State::InRecover(by, incarnation);
        self.entries.clear();
        Ok(self.connection())
    }

    /// Adds an entry to a structure that its user recovers, above all that are there. Full exactly where it needs
    /// more elements than are free.
    pub fn restore_entry(
        &mut self,
        connection: Connection,
        entry: Entry,
    ) -> Result<(), WriteRefused>
        requires recovering { is_recovering self.old.state ≡ true }
        requires epoch { connection.epoch ≡ self.old.epoch }
        requires visible { entry.mark ≡ Visible }
        requires above { AllByRecursion (λ (e : Entry). e.id.number < entry.id.number) self.old.entries }
        requires topped { entry.id.number ≤ (id_at self.old.epoch 0).number }
        ensures passed { OnOk result (restore_refusal self.old entry.place ≡ None) }
        ensures after { OnOk result (self.new ≡ restored self.old entry) }
        ensures why { IfErr result (λ e. IsWhy e.why (restore_refusal self.old entry.place)) }
        ensures back { IfErr result (λ e. (e.head ≡ entry.head) × (e.place ≡ entry.place)) }
        ensures unchanged { OnErr result (self.new ≡ self.old) }
    {
        let need = entry.place.cost();
        let free = self.free();
        if free < need {
            let Entry { head, place, .. } = entry;
            return Err(WriteRefused {
                why: WriteWhy::Full { need, free },
                head,
                place,
            });
        }
        match self.entries.push(entry) {
            Ok(()) => Ok(()),
            Err(refused) => {
                let Entry { head, place, .. } = refused.value;
                Err(WriteRefused {
                    why: WriteWhy::NoMemory,
                    head,
                    place,
                })
            }
        }
    }

    /// Ends a recovery: the structure is active, in the larger of its epoch and the floor.
    pub fn end_recover(&mut self, floor: u32)
        requires recovering { is_recovering self.old.state ≡ true }
        requires fits { floor < 2 ^ 24 }
        ensures { self.new ≡ recovered self.old floor }
    {
        self.state = State::Active;
        self.epoch = self.epoch.max(floor);
    }

    /// Gives a recovery up: the structure is failed and empty.
    pub fn abandon_recover(&mut self)
        requires { is_recovering self.old.state ≡ true }
        ensures { self.new ≡ abandoned self.old }
    {
        self.state = State::Failed;
        self.entries.clear();
    }
}

/// Why a recovery doesn't begin, if it doesn't.
fn fault_of(state: State, live: &[Option<Incarnation>; 8]) -> Option<RecoverFault>
    ensures { result ≡ recover_fault live.now state }
{
    match state {
        State::Active => Some(RecoverFault::NotFailed(state)),
        State::Failed => None,
        State::InRecover(member, incarnation) => {
            if is_live(live, member, incarnation) {
                Some(RecoverFault::InRecover(member))
            } else {
                None
            }
        }
    }
}

fn is_live(live: &[Option<Incarnation>; 8], member: Member, incarnation: Incarnation) -> bool
    ensures { result ≡ is_live live.now member incarnation }
{
    match live[member.index()] {
        Some(other) => other == incarnation,
        None => false,
    }
}
