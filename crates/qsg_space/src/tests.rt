//! A small map, with each of its calls.

use super::*;
use qsg_num::{Block, Blocks};
use std::alloc::{AllocError, Global};
use std::test::Fail;

/// The blocks of these numbers.
fn blocks(alloc: Global, numbers: &[u32]) -> Result<Blocks, AllocError> {
    let mut found = Vec::new(alloc);
    for number in numbers {
        found.push(Block { number: *number })?;
    }
    Ok(Blocks::from_vec(found))
}

/// Takes blocks of a map of five, puts some back, and counts what is free then.
#[test]
fn blocks_come_lowest_first(rt: HostRuntime) -> Result<(), Fail> {
    let alloc = rt.alloc();
    let rows: [(u32, &[u32], &[u32], u32); 6] = [
        (0, &[], &[], 5),
        (2, &[0, 1], &[], 3),
        // a number past the end is passed over
        (1, &[2], &[0, 2, 9], 4),
        // so is a block that is free
        (3, &[0, 2, 3], &[3, 4, 3], 2),
        (2, &[3, 4], &[1], 1),
        (1, &[1], &[], 0),
    ];
    let mut map = Map::new(alloc, 5)?;
    assert_eq!(rt; map.len(), 5);
    for (n, given, back, free) in rows {
        let want = blocks(alloc, given)?;
        let taken = map.take(alloc, n).map_err(|_| AllocError)?;
        assert_eq!(rt; taken.as_slice(), want.as_slice(), "take {n}");
        map.put_back(&blocks(alloc, back)?);
        assert_eq!(rt; map.free_count(), free, "after {n}");
    }
    Ok(())
}

/// Claims blocks one by one, as a map is made from a saved one, and asks for more than are free.
#[test]
fn claimed_blocks_are_used(rt: HostRuntime) -> Result<(), Fail> {
    let alloc = rt.alloc();
    let mut map = Map::new(alloc, 3)?;
    assert!(rt; map.claim(Block { number: 1 }));
    assert!(rt; !map.claim(Block { number: 1 }));
    assert!(rt; map.is_used(Block { number: 1 }));
    assert!(rt; !map.is_used(Block { number: 2 }));
    assert!(rt; !map.is_used(Block { number: 3 }));
    let refused = TakeError::NoRoom(NoRoom { need: 3, free: 2 });
    match map.take(alloc, 3) {
        Ok(_) => assert!(rt; false),
        Err(why) => assert_eq!(rt; why, refused),
    }
    assert_eq!(rt; map.free_count(), 2);
    Ok(())
}
