//! A table with a place for each member and kind of device.

ghost use Rattle.std.specs.Prelude.{◌≡◌, ◌<◌, ℕ};
ghost use Rattle.qsg_disk_mem.specs.Places.{place_of};

use qsg_disk::Kind;
use qsg_num::Member;

/// Places of the table: a log and four data sets for each of eight members.
pub const PLACES: usize = 40;

/// The place of a member and a kind.
pub fn place_of(member: Member, kind: Kind) -> usize
    ensures value { result ≡ place_of member kind }
    ensures bound { result < PLACES }
{
    let kind = match kind {
        Kind::Log => 0,
        Kind::DataSet(structure) => structure.get() as usize,
    };
    5 * member.index() + kind
}
