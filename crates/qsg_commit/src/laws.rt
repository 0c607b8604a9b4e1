//! The steps of a COMMIT or BACKOUT are actions of the machine, and a log that tells its bytes goes on telling its runs.

ghost use Rattle.std.specs.Prelude.{◌≡◌, ◌<◌, ◌≤◌, ◌+◌, ℕ, Bool, true, false, if◌then◌else◌, List, [], ◌∷◌, ◌++◌, Option, Some, None, IsSome, Result, length, slice_get};
ghost use Rattle.qsg_num.specs.declared.seats.Member.{Member};
ghost use Rattle.qsg_num.specs.declared.seats.StructNo.{StructNo};
ghost use Rattle.qsg_num.specs.declared.seats.TaskNo.{TaskNo};
ghost use Rattle.qsg_num.specs.declared.ids.UnitName.{UnitName};
ghost use Rattle.qsg_num.specs.Seats.{member_number, structure_number};
ghost use Rattle.qsg_model.specs.declared.history.Op.{Op};
ghost use Rattle.qsg_repo.specs.Calls.{has_failed};
ghost use Rattle.qsg_group.specs.declared.tasks.Claim.{Claim};
ghost use Rattle.qsg_group.specs.Group.{Run};
ghost use Rattle.qsg_group.specs.Observers.{has_run, logged_ops};
ghost use Rattle.qsg_group.specs.Changes.{Change, open_task, hardening_task, settling_task};
ghost use Rattle.qsg_group.specs.Laws.{Laws};
ghost use Rattle.qsg_unitlog.specs.Units.{is_named};
ghost use Rattle.qsg_unitlog.specs.Tells.{Tells};
ghost use Rattle.qsg_manager.specs.Storage.{task_at};
ghost use Rattle.qsg_manager.specs.Groups.{Rest};
ghost use Rattle.qsg_manager.specs.Rests.{with_unit, with_low};
ghost use Rattle.qsg_manager.specs.Actions.{IsMember, MayBeginUnit, MayHardenUnit, MayBackOutUnit, MayFinishUnit, MayTellLow};
ghost use Rattle.qsg_logs.specs.Kept.{log_in, IsKept};
ghost use Rattle.qsg_parts.specs.Owned.{Owned};
ghost use Rattle.qsg_commit.specs.declared.phases.Phase.{Phase};
ghost use Rattle.qsg_commit.specs.Needs.{MayStepAt};
ghost use Rattle.qsg_commit.specs.declared.phases.StepError.{StepError};
ghost use Rattle.qsg_requests.specs.declared.replies.Turn.{Turn};
ghost use Rattle.qsg_commit.specs.Next.{NextAt};
ghost use Rattle.qsg_commit.specs.Fits.{IsServing, FitsAt, Stepped};
ghost use Rattle.qsg_commit.specs.Committing.{IsLatched, IsPageStep, IsFailedPage};
ghost use Rattle.qsg_commit.specs.Ending.{settled, is_settled, ended, low_page, with_low_told, given_up};
ghost use Rattle.qsg_commit.specs.Machine.{group_in, run_in, MaySettleMark};

/// A unit that takes the latch begins to harden.
pub fn a_latch_is_a_begin()
    ensures { (rest : Rest) (p q : Owned) (u : UnitName) (t : TaskNo) (ops : List (StructNo × Op)) (claims : List Claim) → IsLatched u.member t u p q
        → MayBeginUnit rest.logs p.managers u t ops claims (record { number = (log_in u.member p.logs).writer.next }) → Change (group_in rest p) (group_in rest q) }
{}

/// The log tells then that the unit's run is in hand, from the next page on.
pub fn a_latched_run_is_told()
    ensures { (keep : ℕ) (gone : List UnitName) (runs : List Run) (p q : Owned) (u : UnitName) (t : TaskNo) (ops : List (StructNo × Op)) (claims : List Claim) → IsLatched u.member t u p q
        → member_number u.member ≤ length p.logs → task_at u.member t p.managers ≡ open_task u ops claims → is_named u gone ≡ false → has_run u runs ≡ false
        → Tells keep (log_in u.member p.logs).writer gone runs None (log_in u.member p.logs).bytes
        → Tells keep (log_in u.member q.logs).writer gone runs (Some (run_in u ops claims (log_in u.member p.logs).writer.next)) (log_in u.member q.logs).bytes }
{}

/// A page that isn't the last one leaves the group as it is.
pub fn a_page_leaves_the_group()
    ensures { (rest : Rest) (p q : Owned) (u : UnitName) (t : TaskNo) → IsPageStep u t false p q → group_in rest q ≡ group_in rest p }
{}

/// The last page commits the unit, in the history and in the log.
pub fn the_last_page_is_a_harden()
    ensures change { (rest : Rest) (p q : Owned) (u : UnitName) (t : TaskNo) (ops : List (StructNo × Op)) (claims : List Claim) (first : ℕ) → IsPageStep u t true p q
        → MayHardenUnit rest.logs p.managers u t ops claims first (log_in u.member q.logs).writer.next
        → Change (group_in rest p) (group_in (with_unit u ops claims first (log_in u.member q.logs).writer.next rest) q) }
    ensures history { (rest : Rest) (p q : Owned) (u : UnitName) (t : TaskNo) (ops : List (StructNo × Op)) (claims : List Claim) (first next : ℕ) → IsPageStep u t true p q
        → task_at u.member t p.managers ≡ hardening_task u ops claims first → rest.history ≡ p.history.items → (with_unit u ops claims first next rest).history ≡ q.history.items }
    ensures pages { (p q : Owned) (u : UnitName) (t : TaskNo) (first : ℕ) → IsPageStep u t true p q → IsSome (log_in u.member p.logs).writer.hand
        → first ≤ (log_in u.member p.logs).writer.next → first < (log_in u.member q.logs).writer.next }
{}

/// Each page leaves what the log tells, over a device that tells its bytes; the last one adds the run.
pub fn a_page_leaves_what_is_told()
    ensures { (keep : ℕ) (gone : List UnitName) (runs : List Run) (run : Run) (p q : Owned) (u : UnitName) (t : TaskNo) (done : Bool) → IsPageStep u t done p q → (log_in u.member p.logs).tells ≡ true
        → Tells keep (log_in u.member p.logs).writer gone runs (Some run) (log_in u.member p.logs).bytes
        → Tells keep (log_in u.member q.logs).writer gone (if done then runs ++ run ∷ [] else runs) (if done then None else Some run) (log_in u.member q.logs).bytes }
{}

/// So does a page that failed, which leaves the group as it is too.
pub fn a_failed_page_leaves_all()
    ensures told { (keep : ℕ) (gone : List UnitName) (runs : List Run) (hand : Option Run) (p q : Owned) (m : Member) → IsFailedPage m p q → (log_in m p.logs).tells ≡ true
        → Tells keep (log_in m p.logs).writer gone runs hand (log_in m p.logs).bytes → Tells keep (log_in m q.logs).writer gone runs hand (log_in m q.logs).bytes }
    ensures group { (rest : Rest) (p q : Owned) (m : Member) → IsFailedPage m p q → group_in rest q ≡ group_in rest p }
{}

/// A mark that comes off is the machine's settle, also where its connection isn't served any more.
pub fn a_mark_that_comes_off_is_a_settle()
    ensures { (rest : Rest) (p : Owned) (u : UnitName) (t : TaskNo) (claims : List Claim) (first : Option ℕ) (n : ℕ) (c : Claim) → Laws (group_in rest p) → MaySettleMark p u t claims first n c
        → Change (group_in rest p) (group_in rest (settled u t p)) }
{}

/// After its last mark a unit may end.
pub fn the_last_mark_lets_a_unit_end()
    ensures { (p : Owned) (u : UnitName) (t : TaskNo) (claims : List Claim) (first : Option ℕ) (n : ℕ) (c : Claim) → MaySettleMark p u t claims first n c
        → is_settled u t (settled u t p) ≡ true → MayFinishUnit (settled u t p).managers u t claims first (n + 1) }
{}

/// The end of a unit is the machine's finish.
pub fn an_end_is_a_finish()
    ensures { (rest : Rest) (p : Owned) (u : UnitName) (t : TaskNo) (claims : List Claim) (first : Option ℕ) (n : ℕ) → MayFinishUnit p.managers u t claims first n → Change (group_in rest p) (group_in rest (ended u t p)) }
{}

/// The low page that a member tells is one that its units let it tell. It isn't told while an incarnation of the member
/// is failed and unresolved.
pub fn a_low_page_that_is_told_is_published()
    ensures change { (rest : Rest) (p : Owned) (m : Member) → (low_page m p).number ≤ (rest.logs m).next → ((i : ℕ) → rest.failed m i ≡ false)
        → Change (group_in rest p) (group_in (with_low m (low_page m p).number rest) (with_low_told m p)) }
    ensures refused { (p : Owned) (m : Member) → has_failed m p.repo ≡ true → with_low_told m p ≡ p }
{}

/// A unit that is given up is backed out in the machine.
pub fn giving_up_is_a_backout()
    ensures { (rest : Rest) (p : Owned) (u : UnitName) (t : TaskNo) (ops : List (StructNo × Op)) (claims : List Claim) → MayBackOutUnit p.managers u t ops claims → Change (group_in rest p) (group_in rest (given_up u t p)) }
{}

/// What holds of a member at any time, and how far a request has come, give its next step what it needs.
pub fn a_step_has_what_it_needs()
    ensures { (m : Member) (t : TaskNo) (p : Owned) (phase : Phase) → IsServing m p → FitsAt m (task_at m t p.managers) phase → MayStepAt m t p phase }
{}

/// A step keeps what holds of a member, and a request that hasn't ended still fits.
pub fn a_step_keeps_what_holds()
    ensures { (m : Member) (t : TaskNo) (p q : Owned) (phase after : Phase) (result : Result Turn StepError) → IsServing m p → IsKept (log_in m p.logs).extent (log_in m p.logs).writer (log_in m p.logs).fillings
        → FitsAt m (task_at m t p.managers) phase → NextAt m t phase p result after q → Stepped m t result after q }
{}
