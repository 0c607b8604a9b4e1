//! Each call once, over a small data set, and the bytes of a saved map.

ghost use Rattle.std.specs.Prelude.{◌≡◌, ◌+◌, ◌*◌, ◌^◌, ◌<◌, ◌≤◌, length, false, [], IfSome, IfOk};
ghost use Rattle.std.proofs.lemmas.Bool.{false≢true};

use super::*;
use qsg_disk::{Disk, Failed};
use qsg_num::Block;
use qsg_space::Map;
use std::alloc::Global;
use std::test::Fail;

/// A device that never fails. It tells nothing, so that its proof is short.
#[derive(Drop)]
struct Plain {
    bytes: Vec<u8>,
    ghost small: { length bytes.items < 2 ^ 32 },
}

impl Disk for Plain {
    ghost tells = { λ disk. false };

    ghost bytes = { λ disk. [] };

    ghost extent = { λ disk. length disk.bytes.items };

    ghost faults = { λ disk. 0 };

    ghost whole = { λ disk told. absurd (false≢true told) };

    ghost small = { λ disk. disk.small };

    fn size(&self) -> u32 {
        self.bytes.len() as u32
    }

    fn read(&mut self, at: u32, into: &mut [u8]) -> Result<(), Failed> {
        let at = at as usize;
        into.copy_from_slice(&self.bytes[at..at + into.len()]);
        Ok(())
    }

    fn write(&mut self, at: u32, from: &[u8]) -> Result<(), Failed> {
        let at = at as usize;
        self.bytes[at..at + from.len()].copy_from_slice(from);
        Ok(())
    }

    fn sync(&mut self) -> Result<(), Failed> {
        Ok(())
    }

    fn power_cut(&mut self, _pick: u64, _at: u32) -> u8 {
        0
    }
}

const EPOCH: u32 = 0x0001_0203;

fn device(alloc: Global) -> Option<Plain>
    ensures { IfSome result (λ device. length device.bytes.items ≡ 9216) }
{
    let bytes = vec![in alloc; 0; 9_216].ok()?;
    Some(Plain { bytes })
}

/// Ten blocks of 512 bytes.
fn ten(alloc: Global) -> Option<DataSet<Plain>>
    ensures { IfSome result (λ s. (s.block_size ≡ 512) × (s.blocks ≡ 10)) }
{
    let device = device(alloc)?;
    Some(DataSet::new(device, 512))
}

/// Blocks 0, 3 and 9 are used.
fn used(alloc: Global) -> Option<Map>
    ensures { IfSome result (λ m. length m ≡ 10) }
{
    let mut map = Map::new(alloc, 10).ok()?;
    map.claim(Block { number: 0 });
    map.claim(Block { number: 3 });
    map.claim(Block { number: 9 });
    Some(map)
}

/// The three used blocks, where a map is loaded, and whether the gate is open.
fn loaded(alloc: Global, set: &mut DataSet<Plain>, epoch: u32) -> Option<(Option<[bool; 3]>, bool)>
    ensures sizes { (set.new.block_size ≡ set.old.block_size) × (set.new.blocks ≡ set.old.blocks) }
{
    let Loaded { map, gate_open } = set.load_map(alloc, epoch).ok()?;
    let found = match map {
        Some(map) => Some([
            map.is_used(Block { number: 3 }),
            map.is_used(Block { number: 8 }),
            map.is_used(Block { number: 9 }),
        ]),
        None => None,
    };
    Some((found, gate_open))
}

/// A map is saved, loaded for its epoch alone, and gone once the gate is shut.
#[test]
fn saves_and_loads(rt: HostRuntime) -> Result<(), Fail> {
    let alloc = rt.alloc();
    let (Some(mut set), Some(map)) = (ten(alloc), used(alloc)) else {
        assert!(rt; false);
        return Ok(());
    };
    assert_eq!(rt; loaded(alloc, &mut set, 0), Some((None, false)));
    assert!(rt; set.save_step(&map, EPOCH, 1).is_ok());
    assert!(rt; set.save_step(&map, EPOCH, 2).is_ok());
    assert!(rt; set.save_step(&map, EPOCH, 3).is_ok());
    assert!(rt; set.save_step(&map, EPOCH, 4).is_ok());
    let saved = Some([true, false, true]);
    assert_eq!(rt; loaded(alloc, &mut set, EPOCH), Some((saved, true)));
    assert_eq!(rt; loaded(alloc, &mut set, EPOCH + 1), Some((None, true)));
    let bytes = set.into_device().bytes;
    let header = [1, 1, 0, 0, 0, 1, 2, 3, 0, 0, 0, 10, 0, 0, 0, 0, 9, 2, 0, 0];
    assert!(rt; bytes.starts_with(&header));
    Ok(())
}

/// A block is read as it was written, and the gate is shut.
#[test]
fn writes_and_shuts(rt: HostRuntime) -> Result<(), Fail> {
    let alloc = rt.alloc();
    let (Some(mut set), Some(map)) = (ten(alloc), used(alloc)) else {
        assert!(rt; false);
        return Ok(());
    };
    let last = Block { number: 9 };
    assert!(rt; set.write_block(last, b"body").is_ok());
    assert!(rt; set.sync().is_ok());
    let mut read = [0; 5];
    assert!(rt; set.read_block(last, &mut read).is_ok());
    assert_eq!(rt; read, *b"body\0");
    assert!(rt; set.save_step(&map, EPOCH, 1).is_ok());
    assert!(rt; set.save_step(&map, EPOCH, 3).is_ok());
    assert!(rt; set.shut_step(1).is_ok());
    assert!(rt; set.shut_step(2).is_ok());
    assert_eq!(rt; loaded(alloc, &mut set, EPOCH), Some((None, false)));
    Ok(())
}

/// A cut leaves the blocks as they were made safe, and the size of the data set.
#[test]
fn survives_a_cut(rt: HostRuntime) -> Result<(), Fail> {
    let alloc = rt.alloc();
    let Some(mut set) = ten(alloc) else {
        assert!(rt; false);
        return Ok(());
    };
    let first = Block { number: 0 };
    assert!(rt; set.write_block(first, b"body").is_ok());
    assert!(rt; set.sync().is_ok());
    set.cut(7);
    let mut read = [0; 4];
    assert!(rt; set.read_block(first, &mut read).is_ok());
    assert_eq!(rt; read, *b"body");
    assert_eq!(rt; set.blocks(), 10);
    assert_eq!(rt; set.block_size(), 512);
    Ok(())
}
