//! What holds of names and numbers, for all of them.

ghost use Rattle.std.specs.Prelude.{◌≡◌, ◌<◌, ◌↔◌, IsTrue, Some};
ghost use Rattle.qsg_num.specs.Seats.{member_number, member_at, structure_number, structure_at, task_number, task_at, priority_number, priority_at};
ghost use Rattle.qsg_num.specs.Ids.{id_at, epoch_of, seq_of, same_unit};
ghost use Rattle.qsg_num.specs.declared.seats.Member.{Member};
ghost use Rattle.qsg_num.specs.declared.seats.StructNo.{StructNo};
ghost use Rattle.qsg_num.specs.declared.seats.TaskNo.{TaskNo};
ghost use Rattle.qsg_num.specs.declared.seats.Priority.{Priority};
ghost use Rattle.qsg_num.specs.declared.ids.EntryId.{EntryId};
ghost use Rattle.qsg_num.specs.declared.ids.UnitName.{UnitName};

/// A member is known by its number.
pub fn members_are_their_numbers()
    ensures { (m : Member) → member_at (member_number m) ≡ Some m }
{}

/// A structure is known by its number.
pub fn structures_are_their_numbers()
    ensures { (s : StructNo) → structure_at (structure_number s) ≡ Some s }
{}

/// A task is known by its number.
pub fn tasks_are_their_numbers()
    ensures { (t : TaskNo) → task_at (task_number t) ≡ Some t }
{}

/// A priority is known by its number.
pub fn priorities_are_their_numbers()
    ensures { (p : Priority) → priority_at (priority_number p) ≡ Some p }
{}

/// The id of an entry is known by its epoch and its number in that epoch.
pub fn ids_are_their_parts()
    ensures { (id : EntryId) → id_at (epoch_of id) (seq_of id) ≡ id }
{}

/// Each id of a later epoch is above each of an earlier one.
pub fn later_epochs_are_above()
    ensures { (a b : EntryId) → epoch_of a < epoch_of b → a.number < b.number }
{}

/// Two names of units are the same where each of their parts is.
pub fn names_are_their_parts()
    ensures { (a b : UnitName) → IsTrue (same_unit a b) ↔ (a ≡ b) }
{}
