//! What holds of a log and its writer, for all of them.

ghost use Rattle.std.specs.Prelude.{◌≡◌, ◌<◌, ◌≤◌, ◌+◌, ◌*◌, ℕ, List, [], None, length, replicate};
ghost use Rattle.qsg_disk.specs.Byte.{Byte, zero_byte};
ghost use Rattle.qsg_logpage.specs.Page.{log_pages};
ghost use Rattle.qsg_logpage.specs.Log.{LogState, IsTied};

/// The log of a new device is empty.
pub fn new_log_is_empty()
    ensures { (size : ℕ) → 0 < size → IsTied 0 (record { size = size; next = 0; reserved = []; hand = None }) (replicate (4096 * size) zero_byte) }
{}

/// The first page that may not be written over may rise as far as the next page.
pub fn keep_may_rise()
    ensures { (keep later : ℕ) (log : LogState) (bytes : List Byte) → keep ≤ later → later ≤ log.next → IsTied keep log bytes → IsTied later log bytes }
{}

/// Where no run is in hand, the page that is written next is the one at which the log's pages end.
pub fn pages_end_at_the_next()
    ensures { (keep : ℕ) (log : LogState) (bytes : List Byte) → log.hand ≡ None → IsTied keep log bytes → keep + length (log_pages bytes log.size keep) ≡ log.next }
{}
