//! Small cases of the devices and of both rigs.

use crate::{BlindRig, MemDisk, MemRig};
use qsg_disk::{Disk, Kind, Rig};
use qsg_num::{Bytes, Member, StructNo};
use std::test::Fail;

/// Writes, where the range lies within the device.
fn write<D: Disk>(disk: &mut D, at: u32, from: &[u8]) -> bool {
    if at as usize + from.len() <= disk.size() as usize {
        disk.write(at, from).is_ok()
    } else {
        false
    }
}

/// Reads, where the range lies within the device.
fn read<D: Disk>(disk: &mut D, at: u32, into: &mut [u8]) -> bool {
    if at as usize + into.len() <= disk.size() as usize {
        disk.read(at, into).is_ok()
    } else {
        false
    }
}

/// Cuts the power, where the byte lies within the device.
fn cut<D: Disk>(disk: &mut D, pick: u64, at: u32) -> Option<u8> {
    if at < disk.size() {
        Some(disk.power_cut(pick, at))
    } else {
        None
    }
}

/// What a device of zeros has after a write of 7 at byte 1, another of 9 that fails at byte 2, and a cut: old
/// and new values, one number for all, and by the offset.
#[test]
fn a_cut_by_its_pick(rt: HostRuntime) -> Result<(), Fail> {
    let alloc = rt.alloc();
    let cases = [
        (0, [0, 0, 0, 0]),
        (1, [0, 7, 0, 0]),
        (2, [0, 0, 0, 0]),
        (11, [0, 9, 9, 0]),
        (257, [0, 255, 255, 0]),
        (258, [0, 0, 195, 0]),
        (301, [0, 0, 135, 0]),
        (302, [0, 7, 0, 0]),
    ];
    for (pick, expected) in cases {
        let mut failing = Vec::new(alloc);
        failing.push(2)?;
        let mut disk = MemDisk::new(alloc, 4, failing)?;
        assert_eq!(rt; write(&mut disk, 1, &[7]), true);
        assert_eq!(rt; write(&mut disk, 2, &[9]), false);
        assert_eq!(rt; cut(&mut disk, pick, 1), Some(expected[1]));
        let mut found = [0; 4];
        assert_eq!(rt; read(&mut disk, 0, &mut found), true);
        assert_eq!(rt; found, expected);
    }
    Ok(())
}

/// A failed sync leaves everything in doubt; a sync makes it safe.
#[test]
fn a_sync_that_fails(rt: HostRuntime) -> Result<(), Fail> {
    let alloc = rt.alloc();
    for (syncs, expected) in [(1, 0), (2, 5)] {
        let mut failing = Vec::new(alloc);
        failing.push(2)?;
        let mut disk = MemDisk::new(alloc, 9, failing)?;
        assert_eq!(rt; disk.size(), 9);
        assert_eq!(rt; write(&mut disk, 8, &[5]), true);
        for turn in 0..syncs {
            assert_eq!(rt; disk.sync().is_ok(), turn == 1);
        }
        assert_eq!(rt; cut(&mut disk, 0, 8), Some(expected));
    }
    Ok(())
}

/// The second device is refused, and each is told of where it was given back.
#[test]
fn devices_of_a_rig(rt: HostRuntime) -> Result<(), Fail> {
    let alloc = rt.alloc();
    let log = (Member::Two, Kind::Log);
    let set = (Member::Two, Kind::DataSet(StructNo::Four));
    let mut failing = Vec::new(alloc);
    failing.push((set.0, set.1, 1))?;
    let mut refuse = Vec::new(alloc);
    refuse.push(2)?;
    let mut rig = MemRig::new(alloc, failing, refuse)?;
    let made = rig.device(alloc, log.0, log.1, 8);
    assert_eq!(rt; made.is_ok(), true);
    let Ok(mut device) = made else {
        return Ok(());
    };
    assert_eq!(rt; rig.device(alloc, set.0, set.1, 8).is_ok(), false);
    let made = rig.device(alloc, set.0, set.1, 8);
    assert_eq!(rt; made.is_ok(), true);
    let Ok(mut other) = made else {
        return Ok(());
    };
    assert_eq!(rt; device.sync().is_ok(), true);
    assert_eq!(rt; other.sync().is_ok(), false);
    assert_eq!(rt; rig.device_of(log.0, log.1).is_some(), false);
    rig.give_back(log.0, log.1, device);
    assert_eq!(rt; rig.device_of(log.0, log.1).is_some(), true);
    assert_eq!(rt; rig.device_of(set.0, set.1).is_some(), false);
    Ok(())
}

/// A log reads as one page again and again, a data set as what was written.
#[test]
fn devices_that_tell_nothing(rt: HostRuntime) -> Result<(), Fail> {
    let alloc = rt.alloc();
    let mut page = vec![in alloc; 0; 4096]?;
    page[0] = 5;
    page[1] = 6;
    page[4095] = 7;
    let mut rig = BlindRig::new(Bytes::from_vec(page));
    let made = rig.device(alloc, Member::One, Kind::Log, 8192);
    assert_eq!(rt; made.is_ok(), true);
    let Ok(mut log) = made else {
        return Ok(());
    };
    let made = rig.device(alloc, Member::One, Kind::DataSet(StructNo::One), 8192);
    assert_eq!(rt; made.is_ok(), true);
    let Ok(mut set) = made else {
        return Ok(());
    };
    for (at, in_log) in [(0, [5, 6]), (4095, [7, 5]), (4097, [6, 0])] {
        let mut found = [9; 2];
        assert_eq!(rt; write(&mut log, at, &[3, 4]), true);
        assert_eq!(rt; read(&mut log, at, &mut found), true);
        assert_eq!(rt; found, in_log);
        assert_eq!(rt; write(&mut set, at, &[3, 4]), true);
        assert_eq!(rt; read(&mut set, at, &mut found), true);
        assert_eq!(rt; found, [3, 4]);
    }
    rig.give_back(Member::One, Kind::Log, log);
    Ok(())
}
