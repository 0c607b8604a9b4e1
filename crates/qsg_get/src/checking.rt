//! Why a get is refused before it looks at a structure.

ghost use Rattle.std.specs.Prelude.{◌≡◌, ◌≤◌, IfOk, length};
ghost use Rattle.qsg_num.specs.Seats.{structure_number};

use qsg_num::{Delivery, StructNo, UNIT_OPERATIONS};
use qsg_objects::Objects;
use qsg_requests::Reason;

/// What a get takes from its queue.
#[derive(Clone, Copy, Debug, PartialEq, Eq)]
pub struct Terms {
    /// The structure of the queue.
    pub structure: StructNo,
    /// The order in which its messages are delivered.
    pub order: Delivery,
}

ghost use Rattle.qsg_get.specs.Checking.{check_answer};

/// Checks a get of a queue by a unit of so many operations.
pub fn check(objects: &Objects, queue: &str, operations: usize) -> Result<Terms, Reason>
    ensures answer { result ≡ check_answer objects.now queue.now operations }
    ensures within { IfOk result (λ c. structure_number c.structure ≤ length objects.now.structures) }
{
    let Some(queue) = objects.queue(queue) else {
        return Err(Reason::UnknownObject);
    };
    if !queue.definition.get {
        return Err(Reason::GetInhibited);
    }
    if operations >= UNIT_OPERATIONS {
        return Err(Reason::SyncpointLimit);
    }
    Ok(Terms {
        structure: queue.structure,
        order: queue.definition.msgdlvsq,
    })
}
