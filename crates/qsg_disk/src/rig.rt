//! What makes the devices of a group and is given them back.

ghost use Rattle.std.specs.Prelude.{◌≡◌, ◌≤◌, ℕ, Bool, true, replicate, Option, Some, IfOk, IsErrOf, if◌then◌else◌};
ghost use Rattle.qsg_num.specs.Faults.{Rose};
ghost use Rattle.qsg_num.specs.declared.seats.Member.{Member};
ghost use Rattle.qsg_disk.specs.Byte.{zero_byte};
ghost use Rattle.qsg_disk.specs.Places.{is_place};
ghost use Rattle.qsg_disk.specs.declared.kinds.Kind.{Kind};
ghost use Rattle.qsg_disk.specs.declared.rig.RigError.TheVariants as error;

use crate::disk::Disk;
use crate::kinds::Kind;
use qsg_num::{Failed, Member};
use std::alloc::{AllocError, Global};

/// Why a rig made no device.
#[derive(Clone, Copy, Debug, PartialEq, Eq)]
pub enum RigError {
    /// There was no memory for it.
    NoMemory,
    /// The rig failed, and its count of faults rose.
    Failed,
}

impl From<AllocError> for RigError {
    ghost from_gives = { λ _ e. e ≡ error.NoMemory };

    fn from(_: AllocError) -> Self {
        RigError::NoMemory
    }
}

impl From<Failed> for RigError {
    ghost from_gives = { λ _ e. e ≡ error.Failed };

    fn from(_: Failed) -> Self {
        RigError::Failed
    }
}

/// Makes the devices of a group, one for each member and kind, and is given them back at the end.
///
/// No call changes whether a rig tells what it was given back, and none lowers its count of faults.
pub trait Rig {
    /// A device that it makes.
    type D: Disk + Drop + Send;

    /// Whether the rig tells what it was given back.
    ghost tells: { Self → Bool };

    /// The device last given back for a member and a kind, where it tells that.
    ghost given: { Self → Member → Kind → Option Self.D };

    /// How often it has failed.
    ghost faults: { Self → ℕ };

    /// A new device of `size` bytes, with all the room that its calls and give_back will need. One that tells
    /// its bytes reads as zeros, all safe; a rig that tells what it was given back makes such ones alone.
    fn device(
        &mut self,
        alloc: Global,
        member: Member,
        kind: Kind,
        size: u32,
    ) -> Result<Self::D, RigError>
        ensures told { tells self.new ≡ tells self.old }
        ensures given { tells self.old ≡ true → (m : Member) (k : Kind) → given self.new m k ≡ given self.old m k }
        ensures later { faults self.old ≤ faults self.new }
        ensures cause { IsErrOf result error.Failed → Rose (faults self.old) (faults self.new) }
        ensures size { IfOk result (λ d. Self.D.extent d ≡ size) }
        ensures zeros { IfOk result (λ d. Self.D.tells d ≡ true → Self.D.bytes d ≡ replicate size zero_byte) }
        ensures telling { IfOk result (λ d. tells self.old ≡ true → Self.D.tells d ≡ true) };

    /// Takes a device back: for this member and kind it is the one last given back then. Takes no memory.
    fn give_back(&mut self, member: Member, kind: Kind, device: Self::D)
        ensures told { tells self.new ≡ tells self.old }
        ensures given { tells self.old ≡ true → (m : Member) (k : Kind) → given self.new m k ≡ (if is_place member kind m k then Some device else given self.old m k) }
        ensures later { faults self.old ≤ faults self.new };
}
