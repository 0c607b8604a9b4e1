//! What holds of the records of pages and of logs, for all of them.

ghost use Rattle.std.specs.Prelude.{◌≡◌, ◌<◌, ◌++◌, ◌∷◌, ℕ, List, length, take, Option, None};
ghost use Rattle.qsg_disk.specs.Byte.{Byte};
ghost use Rattle.qsg_logrec.specs.declared.record.LogRecord.{LogRecord};
ghost use Rattle.qsg_logrec.specs.Cutting.{cut_bodies};
ghost use Rattle.qsg_logpage.specs.Log.{LogState, IsTied, pages_written, IsCutShort};
ghost use Rattle.qsg_logpage.specs.Page.{log_pages};
ghost use Rattle.qsg_logread.specs.Records.{AreRecords, texts_of, PagesJoin, IsProperFront};
ghost use Rattle.qsg_logread.specs.Logs.{IsLogOf, IsCutLog, lapped, pages_read};

/// Pages have one list of records at most, and leave one begun at most.
pub fn pages_have_one_list_of_records()
    ensures { (begun : Option (List ℕ)) (pages : List (List ℕ)) (records others : List LogRecord) (after other : Option (List ℕ))
        → PagesJoin begun pages records after → PagesJoin begun pages others other → (records ≡ others) × (after ≡ other) }
{}

/// A log has one list of records at most.
pub fn a_log_has_one_list_of_records()
    ensures { (bytes : List Byte) (size keep : ℕ) (records others : List LogRecord) → IsLogOf records bytes size keep → IsLogOf others bytes size keep → records ≡ others }
{}

/// The records of pages behind others come behind theirs.
pub fn records_of_pages_behind_others()
    ensures { (begun middle after : Option (List ℕ)) (pages others : List (List ℕ)) (records more : List LogRecord)
        → PagesJoin begun pages records middle → PagesJoin middle others more after → PagesJoin begun (pages ++ others) (records ++ more) after }
{}

/// The laps of pages are no part of their records.
pub fn laps_are_no_part_of_records()
    ensures { (size first : ℕ) (begun after : Option (List ℕ)) (pages : List (List ℕ)) (records : List LogRecord)
        → PagesJoin begun pages records after → PagesJoin begun (lapped size first pages) records after }
{}

/// The pages into which a run of records is cut have these records, whatever record is unfinished before them.
pub fn a_run_has_its_records()
    ensures { (begun : Option (List ℕ)) (first : LogRecord) (more : List LogRecord) → AreRecords (first ∷ more) → PagesJoin begun (cut_bodies (texts_of (first ∷ more))) (first ∷ more) None }
{}

/// The first pages of a run, where a page of it is left, have a front of its records, whatever record is unfinished
/// before them: a unit isn't committed before the last page of its run.
pub fn the_first_pages_of_a_run_lack_its_last_record()
    ensures { (begun after : Option (List ℕ)) (first : LogRecord) (more records : List LogRecord) (count : ℕ) → AreRecords (first ∷ more) → count < length (cut_bodies (texts_of (first ∷ more)))
        → PagesJoin begun (take count (cut_bodies (texts_of (first ∷ more)))) records after → IsProperFront records (first ∷ more) }
{}

/// Where no run is in hand, reading a log from page `keep` on, up to the first page that isn't read, gives its pages.
pub fn reading_gives_the_pages_of_a_log()
    ensures { (keep : ℕ) (log : LogState) (bytes : List Byte) → log.hand ≡ None → IsTied keep log bytes → pages_read bytes log.size keep log.size ≡ log_pages bytes log.size keep }
{}

/// After a power cut the records of a log are those before the run in hand, or those and the ones that end in the
/// run's pages that became whole.
pub fn records_after_a_power_cut()
    ensures { (keep : ℕ) (log : LogState) (old new : List Byte) (before safe : List (List ℕ)) (records : List LogRecord) (begun : Option (List ℕ))
        → IsCutShort keep log old new → pages_written keep log old ≡ before ++ safe → PagesJoin None before records begun → IsCutLog keep log new records begun safe }
{}
