//! A power cut while a writer is at work.

ghost use Rattle.std.specs.Prelude.{◌≡◌, ◌<◌, ◌≤◌, ℕ, true};
ghost use Rattle.qsg_disk.specs.Byte.{Byte};
ghost use Rattle.qsg_logpage.specs.Log.{IsTied, IsCutShort};

use crate::writer::LogWriter;
use qsg_disk::Disk;

/// The power goes and comes back while a writer is at work: the pages of its log from keep on are those before
/// the page in hand, with that page or without. Answers the value that byte `at` then has.
pub fn power_cut<D: Disk>(log: &LogWriter, device: &mut D, pick: u64, at: u32) -> u8
    requires { at < D.extent device.old }
    ensures told { D.tells device.new ≡ D.tells device.old }
    ensures extent { D.extent device.new ≡ D.extent device.old }
    ensures faults { D.faults device.old ≤ D.faults device.new }
    ensures cut { D.tells device.old ≡ true → (keep : ℕ) → IsTied keep log.now (D.bytes device.old) → IsCutShort keep log.now (D.bytes device.old) (D.bytes device.new) }
{
    let _ = log.in_hand();
    device.power_cut(pick, at)
}
