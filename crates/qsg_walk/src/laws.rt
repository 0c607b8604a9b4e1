//! What a walk has read of a log.

ghost use Rattle.std.specs.Prelude.{◌≡◌, ◌<◌, ◌≤◌, ◌⊎◌, ℕ, List, Option, None, Some, IsSome, map};
ghost use Rattle.qsg_disk.specs.Byte.{Byte, values, synced};
ghost use Rattle.qsg_logpage.specs.Log.{Hand, LogState, IsTied, advanced};
ghost use Rattle.qsg_logpage.specs.Reserved.{pages_for};
ghost use Rattle.qsg_logpage.specs.declared.step.Phase.TheVariants.{GateWritten};
ghost use Rattle.qsg_logpage.specs.Page.{page_at};
ghost use Rattle.qsg_logrec.specs.declared.record.LogRecord.{LogRecord};
ghost use Rattle.qsg_walk.specs.Walks.{Walk, new_walk, after_read, Feeds};
ghost use Rattle.qsg_walk.specs.Following.{read_at, Follows, HasReadAll};

/// A walk follows its log, whichever of its steps comes next, as long as the pages that it read stay.
pub fn a_walk_follows_its_log()
    ensures begun { (first size : ℕ) (bytes : List Byte) → Follows first size bytes (new_walk first size) }
    ensures fed { (first size : ℕ) (bytes : List Byte) (old new : Walk) (records : List LogRecord) → Follows first size bytes old → Feeds old records new → Follows first size bytes new }
    ensures read { (first size : ℕ) (bytes : List Byte) (w : Walk) (found : Option (List ℕ)) → Follows first size bytes w → w.kept ≡ None → 0 < w.left → found ≡ read_at bytes size w.next → Follows first size bytes (after_read found w) }
    // A walk that goes on, or has a page to feed, looks only at the values of the pages that it read.
    ensures stays { (first size : ℕ) (old new : List Byte) (w : Walk) → Follows first size old w → (0 < w.left) ⊎ IsSome w.kept
        → ((k : ℕ) → first ≤ k → k < w.next → values (page_at new size k) ≡ values (page_at old size k)) → Follows first size new w }
{}

/// A walk that has ended, with its last page fed, has read all that was written of the log, where no page is read at the
/// next place; so it is where no run is in hand.
pub fn a_walk_that_has_ended_read_the_log()
    ensures read { (first : ℕ) (log : LogState) (bytes : List Byte) (w : Walk) → Follows first log.size bytes w → w.left ≡ 0 → w.kept ≡ None → read_at bytes log.size log.next ≡ None → IsTied first log bytes → log.next ≤ 4290000000 → HasReadAll first log bytes w.reader }
    ensures idle { (first : ℕ) (log : LogState) (bytes : List Byte) → log.hand ≡ None → IsTied first log bytes → read_at bytes log.size log.next ≡ None }
{}

/// A page in hand whose gate is written is read too. A walk that has ended then has read all that is written once that
/// gate is safe: all that the log has behind the next step of its writer, were its device synced now.
pub fn a_walk_that_has_ended_read_the_page_in_hand()
    ensures { (first : ℕ) (log : LogState) (hand : Hand) (bytes : List Byte) (w : Walk) → log.hand ≡ Some hand → hand.phase ≡ GateWritten → 1 ≤ pages_for hand.unit log.reserved → IsTied first log bytes
        → Follows first log.size bytes w → w.left ≡ 0 → w.kept ≡ None → log.next < 4290000000 → HasReadAll first (advanced log) (map synced bytes) w.reader }
{}
