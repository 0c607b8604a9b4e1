//! Which system task reads the log of a member.

ghost use Rattle.std.specs.Prelude.{◌≡◌};
ghost use Rattle.qsg_step.specs.Reading.{reads, reader_of};

use qsg_num::Member;
use qsg_peers::Peers;

/// The members that a group may have, in order.
pub const MEMBERS: [Member; 8] = [
    Member::One,
    Member::Two,
    Member::Three,
    Member::Four,
    Member::Five,
    Member::Six,
    Member::Seven,
    Member::Eight,
];

/// Whether the system task of `by` is in the midst of reading the log of a member.
fn reads(peers: &Peers, member: Member, by: Member) -> bool
    ensures { result ≡ reads member peers.now by }
{
    match peers.reading(by) {
        Some(of) => of.get() == member.get(),
        None => false,
    }
}

/// The first member whose system task is.
pub fn reader_of(peers: &Peers, member: Member) -> Option<Member>
    ensures { result ≡ reader_of member peers.now }
{
    MEMBERS.iter().copied().find(|by| reads(peers, member, *by))
}
