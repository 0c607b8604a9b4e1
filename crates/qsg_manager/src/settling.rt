//! The action that settles the next mark of a committed or backed out unit.

ghost use Rattle.std.specs.Prelude.{◌≡◌, ◌≤◌, ◌<◌, Some, length};
ghost use Rattle.qsg_num.specs.Seats.{structure_number};
ghost use Rattle.qsg_lists.specs.Settling.{settle_answer, settled_entry, revised_if_done};
ghost use Rattle.qsg_manager.specs.Facilities.{structure_in, with_structure};
ghost use Rattle.qsg_manager.specs.Settles.{next_claim, commits, further, settled_of};

use crate::structures::Structures;
use qsg_group::{Claim, Stage, Task};
use qsg_lists::{Lost, Settled};
use qsg_num::UnitName;

/// The claim that a unit settles next.
pub fn next_claim(task: &Task) -> Option<Claim>
    ensures { result ≡ next_claim task.now }
{
    match task.stage {
        Stage::Open | Stage::Hardening(_) => None,
        Stage::Committed { settled, .. } | Stage::BackedOut { settled } => {
            task.claims.as_slice().get(settled).copied()
        }
    }
}

/// Whether a unit settles its marks as one that is committed.
pub fn commits(stage: Stage) -> bool
    ensures { result ≡ commits stage }
{
    matches!(stage, Stage::Committed { .. })
}

/// The stage of a unit with so many claims, one more of them settled.
pub fn further(stage: Stage, claims: usize) -> Stage
    requires { settled_of stage < claims }
    ensures { result ≡ further stage }
{
    match stage {
        Stage::Open | Stage::Hardening(_) => stage,
        Stage::Committed { first, settled } => Stage::Committed {
            first,
            settled: settled + 1,
        },
        Stage::BackedOut { settled } => Stage::BackedOut {
            settled: settled + 1,
        },
    }
}

/// Settles the next claim of a unit that is committed or backed out. Where its connection isn't served any more, the
/// claim counts as settled. No call takes memory.
pub fn settle_next(
    structures: &mut Structures,
    task: &mut Task,
    unit: UnitName,
    claim: Claim,
) -> Result<Settled, Lost>
    requires next { next_claim task.old ≡ Some claim }
    requires within { structure_number claim.connection.structure ≤ length structures.old }
    ensures answer { result ≡ settle_answer (structure_in claim.connection.structure structures.old) claim.connection claim.id unit }
    ensures settled { structures.new ≡ with_structure claim.connection.structure (revised_if_done result claim.id (settled_entry (commits task.old.stage)) (structure_in claim.connection.structure structures.old)) structures.old }
    ensures further { task.new ≡ record task.old { stage = further task.old.stage } }
{
    let result = structures.settle(claim.connection, claim.id, unit, commits(task.stage));
    task.stage = further(task.stage, task.claims.len());
    result
}
