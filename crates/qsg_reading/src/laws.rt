//! What a walk over a log has read, and what it knows at its end.

ghost use Rattle.std.specs.Prelude.{◌≡◌, ◌<◌, ◌≤◌, ◌++◌, ◌∷◌, [], ℕ, Bool, List, Option, None, true, false, nat_le, filter};
ghost use Rattle.qsg_num.specs.declared.ids.Incarnation.{Incarnation};
ghost use Rattle.qsg_num.specs.declared.ids.UnitName.{UnitName};
ghost use Rattle.qsg_num.specs.declared.seats.Member.{Member};
ghost use Rattle.qsg_num.specs.declared.words.LogWhy.{LogWhy};
ghost use Rattle.qsg_logpage.specs.Page.{page_at};
ghost use Rattle.qsg_logpage.specs.Log.{Hand, IsTied, advanced, made_safe};
ghost use Rattle.qsg_logrec.specs.declared.record.LogRecord.{LogRecord};
ghost use Rattle.qsg_logread.specs.Fed.{is_committed};
ghost use Rattle.qsg_group.specs.Group.{Run, Log};
ghost use Rattle.qsg_group.specs.Observers.{has_run, runs_from};
ghost use Rattle.qsg_unitlog.specs.Tells.{Tells};
ghost use Rattle.qsg_logs.specs.Kept.{KeptLog};
ghost use Rattle.qsg_logs.specs.Cuts.{IsCut};
ghost use Rattle.qsg_walk.specs.Walks.{Walk, new_walk, after_read, Feeds, IsBad};
ghost use Rattle.qsg_walk.specs.Following.{read_at};
ghost use Rattle.qsg_reading.specs.Knowing.{is_of, Knows, IsOfOthers, AgreeOn};
ghost use Rattle.qsg_reading.specs.Reading.{written_from, IsReading, HasReadWritten, KeepsLast, IsLater};

/// A new walk from the low page on is reading, over a log whose bytes tell of its runs.
pub fn a_new_walk_is_reading()
    ensures { (life : Member × Incarnation) (log : Log) (kept : KeptLog) (gone : List UnitName) (hand : Option Run)
        → Tells log.low kept.writer gone (runs_from log.low log.runs) hand kept.bytes → 0 < kept.writer.size → kept.writer.next ≤ 4290000000
        → IsReading life log kept (new_walk log.low kept.writer.size) }
{}

/// So is one that has fed the page that it kept, or read its next page. A page that it keeps is never refused.
pub fn a_walk_goes_on_reading()
    ensures fed { (life : Member × Incarnation) (log : Log) (kept : KeptLog) (old new : Walk) (records : List LogRecord) → IsReading life log kept old → Feeds old records new → IsReading life log kept new }
    ensures good { (life : Member × Incarnation) (log : Log) (kept : KeptLog) (w : Walk) (why : LogWhy) → IsReading life log kept w → IsBad w why → ⊥ }
    // The page that is read may be in hand; then it is of no unit of the incarnation.
    ensures read { (life : Member × Incarnation) (log : Log) (kept : KeptLog) (w : Walk) (found : Option (List ℕ)) (gone : List UnitName) (hand : Option Run)
        → IsReading life log kept w → w.kept ≡ None → 0 < w.left
        → Tells log.low kept.writer gone (runs_from log.low log.runs) hand kept.bytes → IsOfOthers life hand → kept.writer.next ≤ 4290000000
        → found ≡ read_at kept.bytes kept.writer.size w.next → IsReading life log kept (after_read found w) }
{}

/// A walk is reading still when others have gone on with the log, as long as it has the same runs of the incarnation's
/// units. Where a run is taken in hand, the walk has read written pages only.
pub fn a_walk_is_reading_while_a_log_goes_on()
    ensures later { (life : Member × Incarnation) (log after : Log) (old new : KeptLog) (w : Walk) → IsReading life log old w → AgreeOn life log after → (0 < w.left → IsLater log.low old new) → IsReading life after new w }
    ensures begun { (life : Member × Incarnation) (log : Log) (old new : KeptLog) (hand : Option Hand) (w : Walk) → IsReading life log old w → IsTied log.low old.writer old.bytes → old.writer.hand ≡ None → HasReadWritten w old
        → new.writer ≡ record old.writer { hand = hand } → new.bytes ≡ old.bytes → IsReading life log new w }
{}

/// What others do to a log: what changes only what is reserved, or nothing; a step of the writer; one that failed; and a
/// power cut.
pub fn a_log_goes_on()
    ensures same { (low : ℕ) (old new : KeptLog) → new.writer.size ≡ old.writer.size → new.writer.next ≡ old.writer.next → new.writer.hand ≡ old.writer.hand → new.bytes ≡ old.bytes → IsLater low old new }
    ensures step { (low : ℕ) (old new : KeptLog) → new.writer ≡ advanced old.writer → written_from low new ≡ written_from low old ++ made_safe old.writer → IsLater low old new }
    ensures failed { (low : ℕ) (old new : KeptLog) → low ≤ old.writer.next → new.writer ≡ old.writer → ((k : ℕ) → low ≤ k → k < old.writer.next → page_at new.bytes old.writer.size k ≡ page_at old.bytes old.writer.size k) → IsLater low old new }
    ensures cut { (low : ℕ) (left : Bool) (old new : KeptLog) → IsCut left old new → old.tells ≡ true → IsTied low old.writer old.bytes → IsLater low old new }
{}

/// A run of another incarnation that becomes whole, and runs before the low page that are dropped, are no matter of what
/// is known of an incarnation: nor is anything else that others do, as the bytes tell of the runs before and after.
pub fn runs_of_others_are_no_matter()
    ensures none { (life : Member × Incarnation) (log : Log) → AgreeOn life log log }
    ensures whole { (life : Member × Incarnation) (log : Log) (run : Run) (next : ℕ) → is_of life run.unit ≡ false → AgreeOn life log (record log { runs = log.runs ++ run ∷ []; next = next }) }
    ensures dropped { (life : Member × Incarnation) (log : Log) (page : ℕ) → page ≤ log.low → AgreeOn life log (record log { runs = filter (λ run. nat_le page run.first) log.runs; keep = page }) }
    ensures told { (life : Member × Incarnation) (log after : Log) (old new : KeptLog) (gone later : List UnitName) (hand next : Option Run) → after.low ≡ log.low
        → Tells log.low old.writer gone (runs_from log.low log.runs) hand old.bytes → Tells after.low new.writer later (runs_from after.low after.runs) next new.bytes
        → IsOfOthers life hand → IsLater log.low old new → AgreeOn life log after }
    ensures begun { (life : Member × Incarnation) (log after : Log) (old new : KeptLog) (gone later : List UnitName) (hand next : Option Run) → after.low ≡ log.low
        → Tells log.low old.writer gone (runs_from log.low log.runs) hand old.bytes → Tells after.low new.writer later (runs_from after.low after.runs) next new.bytes
        → (held : Option Hand) → new.writer ≡ record old.writer { hand = held } → new.bytes ≡ old.bytes → AgreeOn life log after }
{}

/// Where no run is in hand, a walk that goes on has read written pages: so has a new one, and a walk's own steps and
/// those of the writer leave it so.
pub fn a_walk_has_read_written_pages()
    ensures begun { (low : ℕ) (kept : KeptLog) → low ≤ kept.writer.next → HasReadWritten (new_walk low kept.writer.size) kept }
    ensures fed { (kept : KeptLog) (old new : Walk) (records : List LogRecord) → HasReadWritten old kept → Feeds old records new → HasReadWritten new kept }
    ensures read { (low : ℕ) (kept : KeptLog) (w : Walk) (found : Option (List ℕ)) → HasReadWritten w kept → 0 < w.left → IsTied low kept.writer kept.bytes → found ≡ read_at kept.bytes kept.writer.size w.next → HasReadWritten (after_read found w) kept }
    ensures step { (life : Member × Incarnation) (log : Log) (old new : KeptLog) (w : Walk) → IsReading life log old w → IsTied log.low old.writer old.bytes → HasReadWritten w old → new.writer ≡ advanced old.writer → HasReadWritten w new }
    ensures same { (old new : KeptLog) (w : Walk) → new.writer.next ≡ old.writer.next → (new.writer.hand ≡ None → old.writer.hand ≡ None) → HasReadWritten w old → HasReadWritten w new }
    // So it is, also after a power cut, where no walk that goes on keeps a page.
    ensures unread { (low : ℕ) (kept : KeptLog) (w : Walk) → low ≤ kept.writer.next → KeepsLast low w → (0 < w.left → w.kept ≡ None) → HasReadWritten w kept }
{}

/// Between two steps of its work a walk that goes on keeps the page that it read last, or has read none.
pub fn a_walk_keeps_the_page_that_it_read_last()
    ensures begun { (low size : ℕ) → KeepsLast low (new_walk low size) }
    ensures read { (low : ℕ) (w : Walk) (found : Option (List ℕ)) → w.kept ≡ None → KeepsLast low (after_read found w) }
{}

/// At the end of a walk, with its last page fed, its reader knows of each unit of the incarnation whether its run is in
/// the log.
pub fn a_walk_that_has_ended_knows()
    ensures log { (life : Member × Incarnation) (log : Log) (kept : KeptLog) (w : Walk) → IsReading life log kept w → w.left ≡ 0 → w.kept ≡ None → Knows life w.reader log }
    ensures logs { (life : Member × Incarnation) (logs : Member → Log) (kept : KeptLog) (w : Walk) → IsReading life (logs life.0) kept w → w.left ≡ 0 → w.kept ≡ None
        → (u : UnitName) → is_of life u ≡ true → is_committed u w.reader.commits ≡ has_run u (runs_from (logs u.member).low (logs u.member).runs) }
{}
