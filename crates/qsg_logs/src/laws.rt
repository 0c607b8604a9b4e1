//! What is reserved is for the units of tasks, and each open unit with an operation has what its records and its commit
//! need: which calls keep that, and what it gives. Where a log goes on after a power cut.

ghost use Rattle.std.specs.Prelude.{◌≡◌, ◌<◌, ◌≤◌, ℕ, List, [], ◌∷◌, Bool, true, false, Option, None, Some, length, nat_lt};
ghost use Rattle.qsg_num.specs.declared.ids.UnitName.{UnitName};
ghost use Rattle.qsg_num.specs.declared.seats.StructNo.{StructNo};
ghost use Rattle.qsg_num.specs.declared.seats.TaskNo.{TaskNo};
ghost use Rattle.qsg_model.specs.declared.history.Op.{Op};
ghost use Rattle.qsg_logpage.specs.Reserved.{besides, pages_for};
ghost use Rattle.qsg_logpage.specs.Log.{IsTied, has_run, advanced};
ghost use Rattle.qsg_group.specs.declared.tasks.Claim.{Claim};
ghost use Rattle.qsg_group.specs.declared.tasks.Task.{Task};
ghost use Rattle.qsg_group.specs.Group.{idle};
ghost use Rattle.qsg_group.specs.Observers.{is_hardening};
ghost use Rattle.qsg_group.specs.Changes.{open_task, hardening_task};
ghost use Rattle.qsg_unitlog.specs.Units.{run_pages};
ghost use Rattle.qsg_group.specs.Observers.{logged_ops};
ghost use Rattle.qsg_unitlog.specs.Tells.{ends_run, after_cut};
ghost use Rattle.qsg_logs.specs.Writers.{IsWithin};
ghost use Rattle.qsg_logs.specs.Kept.{KeptLog, no_fillings, filling_of, need_of, with_reserved, with_record_of, fallen_back, with_begun, with_ended};
ghost use Rattle.qsg_logs.specs.Held.{HoldsUnit, AreHeld, Sets, Adds, SettlesMarks, logged_by};
ghost use Rattle.qsg_logs.specs.Cuts.{IsCut};

/// Tasks that hold nothing need nothing reserved.
pub fn nothing_is_held_at_first()
    ensures { (tasks : TaskNo → Task) (log : KeptLog) → ((t : TaskNo) → tasks t ≡ idle) → log.writer.reserved ≡ [] → log.writer.hand ≡ None → log.fillings ≡ no_fillings → AreHeld tasks log }
{}

/// A member's tasks have fewer than eight reservations.
pub fn reservations_are_few()
    ensures { (tasks : TaskNo → Task) (log : KeptLog) (u : UnitName) → AreHeld tasks log → length (besides u log.writer.reserved) < 8 }
{}

/// No run is in hand of a unit that no task is hardening, be it a name that no task holds; and none at all where no task
/// is hardening.
pub fn no_run_is_in_hand()
    ensures of_unit { (tasks : TaskNo → Task) (log : KeptLog) (u : UnitName) → AreHeld tasks log → ((w : TaskNo) → HoldsUnit tasks u w → is_hardening (tasks w).stage ≡ false) → has_run u log.writer ≡ false }
    ensures of_any { (tasks : TaskNo → Task) (log : KeptLog) → AreHeld tasks log → ((w : TaskNo) → is_hardening (tasks w).stage ≡ false) → log.writer.hand ≡ None }
{}

/// A name that is drawn has nothing reserved.
pub fn a_drawn_name_is_held()
    ensures { (old new : TaskNo → Task) (log : KeptLog) (t : TaskNo) (u : UnitName) → AreHeld old log → old t ≡ idle → ((w : TaskNo) → HoldsUnit old u w → ⊥) → Sets t (open_task u [] []) old new → AreHeld new log }
{}

/// One record more never needs fewer pages.
pub fn one_record_more_never_needs_less()
    ensures { (tasks : TaskNo → Task) (log : KeptLog) (t : TaskNo) (u : UnitName) (ops : List (StructNo × Op)) (claims : List Claim) (logged : Option ℕ) → AreHeld tasks log → tasks t ≡ open_task u ops claims → need_of t None log ≤ need_of t logged log }
{}

/// A task's unit may have any number of pages reserved that covers its records and its commit.
pub fn a_reservation_is_held()
    ensures { (tasks : TaskNo → Task) (log : KeptLog) (t : TaskNo) (u : UnitName) (pages : ℕ) → AreHeld tasks log → HoldsUnit tasks u t → is_hardening (tasks t).stage ≡ false → need_of t None log ≤ pages → AreHeld tasks (with_reserved u pages log) }
{}

/// No unit has more pages reserved than the log has.
pub fn what_is_reserved_fits()
    ensures { (log : KeptLog) (u : UnitName) → IsWithin log.writer → pages_for u log.writer.reserved ≤ log.writer.size }
{}

/// A unit has one operation more, whose record it has reserved.
pub fn an_operation_is_held()
    ensures { (old new : TaskNo → Task) (log : KeptLog) (t : TaskNo) (u : UnitName) (op : StructNo × Op) (claim : Claim) → AreHeld old log → length log.fillings ≡ 5 → Adds u op claim (old t) (new t) → Sets t (new t) old new
        → need_of t (logged_by u op claim) log ≤ pages_for u log.writer.reserved → AreHeld new (with_record_of t (logged_by u op claim) log) }
{}

/// After a refusal the unit has what it needs without the operation, which is no more than what it has reserved.
pub fn a_fall_back_is_held()
    ensures less { (tasks : TaskNo → Task) (log : KeptLog) (t : TaskNo) (u : UnitName) (ops : List (StructNo × Op)) (claims : List Claim) → AreHeld tasks log → tasks t ≡ open_task u ops claims → 0 < length ops → need_of t None log ≤ pages_for u log.writer.reserved }
    ensures held { (tasks : TaskNo → Task) (log : KeptLog) (t : TaskNo) (u : UnitName) (ops : List (StructNo × Op)) (claims : List Claim) → AreHeld tasks log → tasks t ≡ open_task u ops claims → AreHeld tasks (fallen_back t u (nat_lt 0 (length ops)) log) }
{}

/// The run of an open unit with an operation has no more pages than the unit has reserved.
pub fn a_run_fits()
    ensures { (tasks : TaskNo → Task) (log : KeptLog) (t : TaskNo) (u : UnitName) (ops : List (StructNo × Op)) (claims : List Claim) (structures : List StructNo) → AreHeld tasks log → tasks t ≡ open_task u ops claims → 0 < length ops
        → length (run_pages u (logged_ops ops claims) structures) ≤ pages_for u log.writer.reserved }
{}

/// The run that is taken in hand is that of the task that begins to harden.
pub fn a_begun_run_is_held()
    ensures { (old new : TaskNo → Task) (log : KeptLog) (t : TaskNo) (u : UnitName) (ops : List (StructNo × Op)) (claims : List Claim) (first : ℕ) (pages : List (List ℕ)) → AreHeld old log → old t ≡ open_task u ops claims → ((w : TaskNo) → is_hardening (old w).stage ≡ false)
        → Sets t (hardening_task u ops claims first) old new → AreHeld new (with_begun u pages log) }
{}

/// A step of the writer that doesn't end the run leaves it in hand.
pub fn a_step_is_held()
    ensures { (tasks : TaskNo → Task) (old new : KeptLog) → AreHeld tasks old → IsWithin old.writer → ends_run old.writer ≡ false → new.writer ≡ advanced old.writer → new.fillings ≡ old.fillings → AreHeld tasks new }
{}

/// The step that ends the run leaves none in hand, and its unit is decided.
pub fn the_last_step_is_held()
    ensures { (old new : TaskNo → Task) (before after : KeptLog) (t : TaskNo) (task : Task) → AreHeld old before → ends_run before.writer ≡ true → is_hardening (old t).stage ≡ true → after.writer ≡ advanced before.writer → after.fillings ≡ before.fillings
        → Sets t task old new → SettlesMarks (old t) task → AreHeld new after }
{}

/// A unit that settles its marks, or begins to, needs no page.
pub fn a_unit_that_settles_is_held()
    ensures { (old new : TaskNo → Task) (log : KeptLog) (t : TaskNo) (task : Task) → AreHeld old log → is_hardening (old t).stage ≡ false → Sets t task old new → SettlesMarks (old t) task → AreHeld new log }
{}

/// A unit that ends has nothing reserved any more.
pub fn an_ended_unit_is_held()
    ensures { (old new : TaskNo → Task) (log : KeptLog) (t : TaskNo) (u : UnitName) → AreHeld old log → length log.fillings ≡ 5 → HoldsUnit old u t → is_hardening (old t).stage ≡ false → Sets t idle old new → AreHeld new (with_ended t u log) }
{}

/// After a power cut of a log that tells its bytes its writer goes on behind the pages that stand.
pub fn a_cut_log_goes_on_behind_its_pages()
    ensures writer { (left : Bool) (old new : KeptLog) (keep : ℕ) → IsCut left old new → old.tells ≡ true → IsTied keep old.writer old.bytes → new.writer ≡ after_cut keep old.writer new.bytes }
    ensures tied { (left : Bool) (old new : KeptLog) (keep : ℕ) → IsCut left old new → old.tells ≡ true → IsTied keep old.writer old.bytes → IsTied keep new.writer new.bytes }
{}
