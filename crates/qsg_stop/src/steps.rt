//! What the steps do to the parts of the group.

ghost use Rattle.std.specs.Prelude.{◌≡◌, ◌≤◌, length};
ghost use Rattle.qsg_num.specs.Seats.{structure_at};
ghost use Rattle.qsg_lists.specs.Structures.{connect_answer};
ghost use Rattle.qsg_manager.specs.Facilities.{structure_in};
ghost use Rattle.qsg_datasets.specs.Kept.{HasSet, set_in, with_set};
ghost use Rattle.qsg_parts.specs.Owned.{owned};
ghost use Rattle.qsg_stop.specs.Needs.{HasStructure, MaySave};
ghost use Rattle.qsg_stop.specs.Steps.{from_structure, after_structure, connected, behind, saved_phase, IsSaveCall};
ghost use Rattle.qsg_stop.specs.Calls.{call_behind};

use crate::phases::{Phase, SaveCall};
use qsg_disk::{Disk, Failed};
use qsg_lists::Connection;
use qsg_num::{Member, StructNo};
use qsg_parts::Parts;

/// The structure of a number comes next, of so many; behind the last one the member's storage goes.
pub fn from_structure(count: usize, number: u8) -> Phase
    ensures { result ≡ from_structure count number }
{
    match StructNo::new(number) {
        Some(structure) => {
            if usize::from(structure.get()) <= count {
                Phase::Connect(structure)
            } else {
                Phase::Last
            }
        }
        None => Phase::Last,
    }
}

/// What comes behind a structure.
pub fn after_structure(count: usize, structure: StructNo) -> Phase
    ensures { result ≡ after_structure count structure }
{
    from_structure(count, structure.get() + 1)
}

/// Connects to a structure: the member's map is saved next, where it stands for the structure's present epoch. Else the
/// next structure comes.
pub fn connect<D: Disk>(parts: &Parts<D>, member: Member, structure: StructNo) -> Phase
    requires structure { HasStructure structure (owned parts.now) }
    requires set { HasSet member structure (owned parts.now).datasets }
    ensures { result ≡ connected structure (length (owned parts.now).structures) (set_in member structure (owned parts.now).datasets) (connect_answer (structure_in structure (owned parts.now).structures)) }
{
    match parts.structures.connect(structure) {
        Ok(seen) => {
            let connection = Connection {
                structure,
                epoch: seen.connection.epoch,
            };
            let set = parts.datasets.set(member, structure);
            if set.stands(connection.epoch) {
                Phase::Save {
                    connection,
                    call: SaveCall::WriteMap,
                }
            } else {
                after_structure(parts.structures.len(), structure)
            }
        }
        Err(_) => after_structure(parts.structures.len(), structure),
    }
}

/// The call behind one that saves a map, if there is one.
fn call_behind(call: SaveCall) -> Option<SaveCall>
    ensures { result ≡ call_behind call }
{
    match call {
        SaveCall::WriteMap => Some(SaveCall::SyncMap),
        SaveCall::SyncMap => Some(SaveCall::OpenGate),
        SaveCall::OpenGate => Some(SaveCall::SyncGate),
        SaveCall::SyncGate => None,
    }
}

/// What comes behind a call that saves a map, with this answer: where it failed, or was the last one, the repository is
/// told.
pub fn saved_phase(connection: Connection, call: SaveCall, answer: Result<(), Failed>) -> Phase
    ensures { result ≡ saved_phase connection call answer }
{
    match answer {
        Ok(()) => match call_behind(call) {
            Some(call) => Phase::Save { connection, call },
            None => Phase::Tell(connection),
        },
        Err(_) => Phase::Tell(connection),
    }
}

/// Makes a call that saves the map that stands for an epoch.
pub fn save<D: Disk>(
    parts: &mut Parts<D>,
    member: Member,
    connection: Connection,
    call: SaveCall,
) -> Result<(), Failed>
    requires set { HasSet member connection.structure (owned parts.old).datasets }
    requires may { MaySave member connection (owned parts.old) }
    ensures call { IsSaveCall call connection.epoch result (set_in member connection.structure (owned parts.old).datasets) (set_in member connection.structure (owned parts.new).datasets) }
    ensures others { owned parts.new ≡ record (owned parts.old) { datasets = with_set member connection.structure (set_in member connection.structure (owned parts.new).datasets) (owned parts.old).datasets } }
{
    let set = parts.datasets.set_mut(member, connection.structure);
    set.save_step(call.get())
}
