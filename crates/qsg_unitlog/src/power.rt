//! Whether a page is whole after a power cut.

ghost use Rattle.std.specs.Prelude.{◌≡◌, ◌<◌, ◌≤◌, ◌*◌, ℕ, true, false, None, not, ◌&&◌, ◌==◌};
ghost use Rattle.qsg_disk.specs.Byte.{Byte};
ghost use Rattle.qsg_logpage.specs.Log.{IsTied, IsCutShort};
ghost use Rattle.qsg_unitlog.specs.Tells.{is_left_whole};

use qsg_disk::Disk;
use qsg_logpage::{InHand, LogWriter};
use qsg_num::PAGE_BYTES;

/// Whether the cut left the page in hand whole, by what its gate is then.
fn is_left(page: InHand, gate: u8) -> bool
    ensures { result ≡ (page.body_safe && not (gate == 0)) }
{
    page.body_safe && gate != 0
}

/// The power goes and comes back while a writer is at work on a log of so many pages, which fills its device. Answers
/// whether the page in hand is whole in the log then: exactly where its body was safe, and the cut left its gate other
/// than 0.
pub fn power_cut<D: Disk>(log: &LogWriter, device: &mut D, size: u32, pick: u64) -> bool
    requires size { size ≡ log.now.size }
    requires fills { 4096 * size ≤ D.extent device.old }
    ensures told { D.tells device.new ≡ D.tells device.old }
    ensures extent { D.extent device.new ≡ D.extent device.old }
    ensures faults { D.faults device.old ≤ D.faults device.new }
    ensures cut { D.tells device.old ≡ true → (keep : ℕ) → IsTied keep log.now (D.bytes device.old) → IsCutShort keep log.now (D.bytes device.old) (D.bytes device.new) }
    ensures idle { log.now.hand ≡ None → result ≡ false }
    ensures whole { D.tells device.old ≡ true → (keep : ℕ) → IsTied keep log.now (D.bytes device.old) → result ≡ is_left_whole keep log.now (D.bytes device.new) }
{
    let Some(page) = log.in_hand() else {
        let _ = device.power_cut(pick, 0);
        return false;
    };
    let gate = device.power_cut(pick, PAGE_BYTES * (page.page.number % size));
    is_left(page, gate)
}
