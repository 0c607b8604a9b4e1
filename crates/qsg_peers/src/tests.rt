//! A system task whose member ends while it has a work in hand.

use crate::Peers;
use qsg_num::Member;
use std::test::*;

#[test]
fn a_work_in_hand_ends_with_its_member(rt: HostRuntime) {
    let alloc = rt.alloc();
    let Ok(mut peers) = Peers::new(alloc) else {
        assert!(rt; false);
        return;
    };
    let member = Member::Two;
    assert!(rt; !peers.is_busy(member));
    assert!(rt; peers.begin(alloc, member).is_ok());
    assert!(rt; peers.is_busy(member));
    assert!(rt; !peers.is_busy(Member::One));
    assert_eq!(rt; peers.reading(member), None);
    peers.end(alloc, member);
    assert!(rt; !peers.is_busy(member));
    assert_eq!(rt; peers.answers(member).len(), 0);
    assert_eq!(rt; peers.given_up(member).len(), 0);
}
