//! What a power cut makes of a byte in doubt.

ghost use Rattle.std.specs.Prelude.{◌≡◌};
ghost use Rattle.qsg_disk_mem.specs.Cut.{chosen};

/// The value of a byte in doubt after a cut: its old value for a pick of 0, its new one for 1, the number
/// `pick - 2` for a pick from 2 to 257, and for a larger one any of these by the byte's offset.
pub fn choose(pick: u64, at: u64, old: u8, new: u8) -> u8
    ensures { result ≡ chosen pick at old new }
{
    if pick == 0 {
        return old;
    }
    if pick == 1 {
        return new;
    }
    if pick < 258 {
        return (pick - 2) as u8;
    }
    let spread = pick
        .wrapping_add(at.wrapping_mul(2654435761))
        .wrapping_mul(6364136223846793005)
        .wrapping_add(1442695040888963407);
    match (spread >> 56) % 3 {
        0 => old,
        1 => new,
        _ => ((spread >> 48) % 256) as u8,
    }
}
