//! What the commands of a list structure do in the machine of the group.

ghost use Rattle.std.specs.Prelude.{◌≡◌, ℕ, Bool, List, Some, None, option_map};
ghost use Rattle.qsg_num.specs.declared.seats.StructNo.{StructNo};
ghost use Rattle.qsg_num.specs.declared.ids.UnitName.{UnitName};
ghost use Rattle.qsg_num.specs.declared.ids.EntryId.{EntryId};
ghost use Rattle.qsg_num.specs.declared.words.Delivery.{Delivery};
ghost use Rattle.qsg_lists.specs.declared.parts.Connection.{Connection};
ghost use Rattle.qsg_lists.specs.declared.parts.Head.{Head};
ghost use Rattle.qsg_lists.specs.declared.parts.Place.{Place};
ghost use Rattle.qsg_lists.specs.declared.parts.Entry.{Entry};
ghost use Rattle.qsg_lists.specs.declared.parts.Selector.{Selector};
ghost use Rattle.qsg_lists.specs.declared.parts.Mark.TheVariants.{PutBy, GotBy};
ghost use Rattle.qsg_lists.specs.Structures.{ListStructure, lost_of};
ghost use Rattle.qsg_lists.specs.Entries.{entry_at as entry_in, first_of};
ghost use Rattle.qsg_lists.specs.Writing.{written, next_id};
ghost use Rattle.qsg_lists.specs.Taking.{taken};
ghost use Rattle.qsg_lists.specs.Settling.{settle_answer, settled_entry, revised_if_done};
ghost use Rattle.qsg_group.specs.Observers.{entry_at, revise};
ghost use Rattle.qsg_group.specs.Changes.{with_entry, with_entries, marked, settle};
ghost use Rattle.qsg_manager.specs.Views.{Outside, body_of, is_outside, message_of, held_of, shelf_of};

/// The entry of an id is the one that the machine finds.
pub fn an_entry_is_found()
    ensures { (outside : Outside) (s : StructNo) (id : EntryId) (structure : ListStructure) →
        entry_at id.number (shelf_of outside s structure).entries ≡ option_map (held_of outside s) (entry_in id structure.entries) }
{}

/// A write adds an entry with the message that its head, its place and the next id make.
pub fn a_write_adds()
    ensures { (outside : Outside) (s : StructNo) (structure : ListStructure) (unit : UnitName) (head : Head) (place : Place) →
        shelf_of outside s (written structure unit head place) ≡
        with_entry (record { message = message_of s (next_id structure) head (body_of (outside s) place); mark = PutBy unit; outside = is_outside place }) (shelf_of outside s structure) }
{}

/// A take of a connection that is served marks the entry that comes first, or none.
pub fn a_take_marks()
    ensures { (outside : Outside) (s : StructNo) (structure : ListStructure) (connection : Connection) (unit : UnitName) (queue : List ℕ) (order : Delivery) (select : Selector) (e : Entry) →
        lost_of structure connection ≡ None → first_of queue order select structure.entries ≡ Some e →
        shelf_of outside s (taken structure connection unit queue order select) ≡ with_entries (revise e.id.number (marked (GotBy unit))) (shelf_of outside s structure) }
{}

/// A settle of a connection that is served settles the entry as the machine does, whoever marked it.
pub fn a_settle_settles()
    ensures { (outside : Outside) (s : StructNo) (structure : ListStructure) (connection : Connection) (id : EntryId) (unit : UnitName) (commits : Bool) →
        lost_of structure connection ≡ None →
        shelf_of outside s (revised_if_done (settle_answer structure connection id unit) id (settled_entry commits) structure) ≡ with_entries (settle id.number unit commits) (shelf_of outside s structure) }
{}
