//! What holds of the pages that records take, for all runs.

ghost use Rattle.std.specs.Prelude.{◌≡◌, ◌+◌, ◌*◌, ◌<◌, ◌≤◌, ℕ, List, [], ◌∷◌, ◌++◌, length, map};
ghost use Rattle.std.specs.List.{All};
ghost use Rattle.qsg_logrec.specs.Cutting.{cut_bodies};
ghost use Rattle.qsg_logrec.specs.Spelling.{record_text, IsRecord};
ghost use Rattle.qsg_logrec.specs.declared.record.LogRecord.{LogRecord};
ghost use Rattle.qsg_logneed.specs.Filled.{with_record, filled};

use crate::counting::{LONGEST_RECORD, RECORD_PAGES};

/// The pages that records fill by their lengths are as many as the records are cut into.
pub fn pages_are_those_of_the_cut()
    ensures { (records : List (List ℕ)) → (filled (map length records)).pages ≡ length (cut_bodies records) }
{}

/// One record more, behind the others.
pub fn one_record_more()
    ensures { (lengths : List ℕ) → (bytes : ℕ) → filled (lengths ++ bytes ∷ []) ≡ with_record (filled lengths) bytes }
{}

/// A record more, wherever it stands, never lowers the pages.
pub fn records_never_lower_the_pages()
    ensures { (before after : List ℕ) → (bytes : ℕ) → (filled (before ++ after)).pages ≤ (filled (before ++ bytes ∷ after)).pages }
{}

/// A run with a record that isn't empty, as each commit, has a page.
pub fn some_record_takes_a_page()
    ensures { (before after : List ℕ) → (bytes : ℕ) → 0 < bytes → 1 ≤ (filled (before ++ bytes ∷ after)).pages }
{}

/// Records that aren't longer than the longest one take at most so many pages each.
pub fn pages_of_records_are_few()
    ensures { (lengths : List ℕ) → All (λ bytes. bytes ≤ LONGEST_RECORD) lengths → (filled lengths).pages ≤ RECORD_PAGES * length lengths }
{}

/// No record is longer than the longest one.
pub fn records_are_not_longer()
    ensures { (written : LogRecord) → IsRecord written → length (record_text written) ≤ LONGEST_RECORD }
{}
