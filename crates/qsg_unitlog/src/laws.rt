//! What the steps of a log's writer, and power cuts, make of what the log tells.

ghost use Rattle.std.specs.Prelude.{◌≡◌, ◌<◌, ◌≤◌, ◌+◌, ◌*◌, ◌++◌, [], ◌∷◌, ℕ, Bool, true, false, not, List, Option, None, Some, length, map, replicate};
ghost use Rattle.std.specs.List.{list_any, list_all};
ghost use Rattle.qsg_num.specs.declared.ids.UnitName.{UnitName};
ghost use Rattle.qsg_num.specs.declared.seats.StructNo.{StructNo};
ghost use Rattle.qsg_model.specs.declared.history.Op.{Op};
ghost use Rattle.qsg_disk.specs.Byte.{Byte, zero_byte};
ghost use Rattle.qsg_logpage.specs.declared.step.Phase.TheVariants.{Fresh};
ghost use Rattle.qsg_logpage.specs.declared.table.Reservation.{Reservation};
ghost use Rattle.qsg_logpage.specs.Page.{page_at};
ghost use Rattle.qsg_logpage.specs.Log.{LogState, IsTied, IsCutShort, advanced, made_safe, pages_written};
ghost use Rattle.qsg_logrec.specs.declared.record.LogRecord.{LogRecord};
ghost use Rattle.qsg_logread.specs.Records.{AreRecords};
ghost use Rattle.qsg_logread.specs.Logs.{IsLogOf};
ghost use Rattle.qsg_logread.specs.Fed.{Fed, is_committed};
ghost use Rattle.qsg_logread.specs.Feeding.{WasFed};
ghost use Rattle.qsg_group.specs.Group.{Run};
ghost use Rattle.qsg_group.specs.Observers.{has_run};
ghost use Rattle.qsg_unitlog.specs.Units.{is_named, run_records, run_pages, told_in, told_by_run, AreOf};
ghost use Rattle.qsg_unitlog.specs.Tells.{Tells, HasRecords, runs_after, hand_after, after_cut, IsCutDown};

/// The log of a new device tells of no run.
pub fn a_new_log_tells_of_no_run()
    ensures { (size : ℕ) → 0 < size → Tells 0 (record { size = size; next = 0; reserved = []; hand = None }) [] [] None (replicate (4096 * size) zero_byte) }
{}

/// A log that no run is in hand of has the records of its runs and no other commit, and it tells of exactly the units
/// of its runs, in order, and of each the records of its operations.
pub fn a_log_tells_of_its_runs()
    ensures records { (keep : ℕ) (log : LogState) (gone : List UnitName) (runs : List Run) (bytes : List Byte) → Tells keep log gone runs None bytes → HasRecords keep log gone runs bytes }
    ensures told { (keep : ℕ) (log : LogState) (gone : List UnitName) (runs : List Run) (bytes : List Byte) (records : List LogRecord)
        → Tells keep log gone runs None bytes → IsLogOf records bytes log.size keep → told_in records ≡ map told_by_run runs }
{}

/// What is reserved is no matter of what a log tells.
pub fn reservations_leave_what_is_told()
    ensures { (keep : ℕ) (log new : LogState) (reserved : List Reservation) (gone : List UnitName) (runs : List Run) (hand : Option Run) (bytes : List Byte)
        → new ≡ record log { reserved = reserved } → IsTied keep new bytes → Tells keep log gone runs hand bytes → Tells keep new gone runs hand bytes }
{}

/// The run of a unit that is new to the log is taken in hand. It begins at the next page.
pub fn a_run_is_taken_in_hand()
    ensures { (keep : ℕ) (log new : LogState) (gone : List UnitName) (runs : List Run) (bytes : List Byte) (unit : UnitName) (told : List (StructNo × Op)) (structures : List StructNo) (pages : List (List ℕ))
        → Tells keep log gone runs None bytes
        → pages ≡ run_pages unit told structures → 0 < length pages → AreRecords (run_records unit told structures)
        → is_named unit gone ≡ false → has_run unit runs ≡ false
        → new ≡ record log { hand = Some (record { unit = unit; pages = pages; phase = Fresh }) } → IsTied keep new bytes
        → Tells keep new gone runs (Some (record { unit = unit; first = log.next; told = told })) bytes }
{}

/// The run in hand begins at or behind the first page that may not be written over, and not behind the next page.
pub fn the_run_in_hand_begins_in_the_log()
    ensures { (keep : ℕ) (log : LogState) (gone : List UnitName) (runs : List Run) (run : Run) (bytes : List Byte) → Tells keep log gone runs (Some run) bytes → (keep ≤ run.first) × (run.first ≤ log.next) }
{}

/// A step leaves what a log tells; the one that makes the last page of the run in hand safe adds the run.
pub fn a_step_leaves_what_is_told()
    ensures { (keep : ℕ) (log new : LogState) (gone : List UnitName) (runs : List Run) (run : Run) (old bytes : List Byte)
        → Tells keep log gone runs (Some run) old
        → new ≡ advanced log → IsTied keep new bytes → pages_written keep new bytes ≡ pages_written keep log old ++ made_safe log
        → Tells keep new gone (runs_after log runs run) (hand_after log run) bytes }
{}

/// A step that failed leaves what a log tells.
pub fn a_failed_step_leaves_what_is_told()
    ensures { (keep : ℕ) (log new : LogState) (gone : List UnitName) (runs : List Run) (hand : Option Run) (old bytes : List Byte)
        → Tells keep log gone runs hand old
        → new ≡ log → IsTied keep new bytes → ((k : ℕ) → keep ≤ k → k < log.next → page_at bytes log.size k ≡ page_at old log.size k)
        → Tells keep new gone runs hand bytes }
{}

/// Where the first page that may not be written over rises to the first page of a run, the runs before it are dropped.
pub fn keep_rises_to_a_run()
    ensures { (keep : ℕ) (log : LogState) (gone : List UnitName) (before after : List Run) (run : Run) (hand : Option Run) (bytes : List Byte)
        → Tells keep log gone (before ++ run ∷ after) hand bytes → Tells run.first log gone (run ∷ after) hand bytes }
{}

/// Where it rises to the first page of the run in hand, or to the next page with none in hand, all runs are dropped.
pub fn keep_rises_behind_all_runs()
    ensures in_hand { (keep : ℕ) (log : LogState) (gone : List UnitName) (runs : List Run) (run : Run) (bytes : List Byte)
        → Tells keep log gone runs (Some run) bytes → Tells run.first log gone [] (Some run) bytes }
    ensures idle { (keep : ℕ) (log : LogState) (gone : List UnitName) (runs : List Run) (bytes : List Byte)
        → Tells keep log gone runs None bytes → Tells log.next log gone [] None bytes }
{}

/// A power cut leaves what a log tells that no run is in hand of.
pub fn a_cut_leaves_an_idle_log()
    ensures { (keep : ℕ) (log : LogState) (gone : List UnitName) (runs : List Run) (old new : List Byte)
        → Tells keep log gone runs None old → IsCutShort keep log old new → Tells keep (after_cut keep log new) gone runs None new }
{}

/// After a power cut the run in hand is whole in the log exactly where its last page was in hand and the cut left that
/// page open. Else the log tells of the runs before it only, and its unit is gone.
pub fn a_cut_drops_or_keeps_the_run_in_hand()
    ensures { (keep : ℕ) (log : LogState) (gone : List UnitName) (runs : List Run) (run : Run) (old new : List Byte)
        → Tells keep log gone runs (Some run) old → IsCutShort keep log old new → IsCutDown keep log gone runs run new }
{}

/// A reader that was fed the pages of a log from keep on answers `committed` exactly for the units of the runs, also
/// while a further run is in hand.
pub fn a_reader_finds_the_units_of_the_runs()
    ensures { (keep : ℕ) (log : LogState) (gone : List UnitName) (runs : List Run) (hand : Option Run) (bytes : List Byte) (pages : List (List ℕ)) (records : List LogRecord) (reader : Fed) (unit : UnitName)
        → Tells keep log gone runs hand bytes → pages ≡ pages_written keep log bytes → WasFed pages records reader → is_committed unit reader.commits ≡ has_run unit runs }
{}
