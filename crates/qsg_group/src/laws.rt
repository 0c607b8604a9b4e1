//! Every change keeps the laws, and what follows from them.

ghost use Rattle.std.specs.Prelude.{◌≡◌, ◌⊎◌, ℕ, Bool, Option, Some, None, true, false, filter};
ghost use Rattle.qsg_num.specs.declared.seats.Member.{Member};
ghost use Rattle.qsg_num.specs.declared.seats.TaskNo.{TaskNo};
ghost use Rattle.qsg_num.specs.declared.ids.UnitName.{UnitName};
ghost use Rattle.qsg_lists.specs.declared.parts.Mark.TheVariants.{PutBy, GotBy};
ghost use Rattle.qsg_num.specs.declared.seats.StructNo.{StructNo};
ghost use Rattle.qsg_model.specs.History.{is_of, held};
ghost use Rattle.qsg_lists.specs.Structures.{is_active};
ghost use Rattle.qsg_group.specs.Group.{Held, Group, empty_group};
ghost use Rattle.qsg_group.specs.Observers.{entry_at, has_run, is_committed, runs_from, counted_messages};
ghost use Rattle.qsg_group.specs.Laws.{is_pending, Laws};
ghost use Rattle.qsg_group.specs.Changes.{settle, Change, Reached};
ghost use Rattle.qsg_group.specs.Outcomes.{Outlives, IsUndone};
ghost use Rattle.qsg_msg.specs.declared.message.Message.{Message};

/// The laws hold before anything has happened.
pub fn the_empty_group_keeps_the_laws()
    ensures { Laws empty_group }
{}

/// Each shared action leaves a group that obeys the laws.
pub fn every_change_keeps_the_laws()
    ensures { (g h : Group) → Change g h → Laws g → Laws h }
{}

/// A group obeys the laws after any number of shared actions, in any order.
pub fn every_group_that_is_reached_keeps_the_laws()
    ensures { (g : Group) → Reached g → Laws g }
{}

/// The messages that count in an active structure, each pending unit settled by its member's log, are exactly those
/// that the history holds there, in order of id.
pub fn an_active_structure_holds_what_the_history_holds()
    ensures { (g : Group) (s : StructNo) → Laws g → is_active (g.shelves s).state ≡ true →
        counted_messages g.logs (g.shelves s).entries ≡ filter (is_of s) (held g.history) }
{}

/// Whether a unit that a mark names is committed is told by its member's log from the low page on: so much of a log is
/// what those who settle such marks have to read.
pub fn a_log_tells_of_marks_from_its_low_page()
    ensures { (g : Group) (s : StructNo) (id : ℕ) (e : Held) (u : UnitName) → Laws g → entry_at id (g.shelves s).entries ≡ Some e →
        (e.mark ≡ PutBy u) ⊎ (e.mark ≡ GotBy u) → has_run u (runs_from (g.logs u.member).low (g.logs u.member).runs) ≡ is_committed g.logs u }
{}

/// No entry of a structure that isn't active is pending, so that a settle leaves its entries as they are.
pub fn a_settle_leaves_an_inactive_structure()
    ensures { (g : Group) (s : StructNo) (id : ℕ) (u : UnitName) (commits : Bool) → Laws g → is_active (g.shelves s).state ≡ false →
        settle id u commits (g.shelves s).entries ≡ (g.shelves s).entries }
{}

/// Once no task holds a unit and each incarnation that failed is resolved, no entry is pending.
pub fn a_group_at_rest_has_no_pending_entries()
    ensures { (g : Group) → Laws g → ((m : Member) (i : ℕ) → g.failed m i ≡ false) → ((m : Member) (t : TaskNo) → (g.tasks m t).unit ≡ None) →
        (s : StructNo) (id : ℕ) (e : Held) → entry_at id (g.shelves s).entries ≡ Some e → is_pending e.mark ≡ false }
{}

/// A unit whose run is safe takes effect although its member ends before it takes its marks off: there is such a run.
pub fn a_safe_unit_outlives_its_member()
    ensures { (m : Message) → (g : Group) × Outlives m g }
{}

/// A unit whose run isn't safe when its member ends leaves nothing: there is such a run, in which a message was put.
pub fn a_unit_that_is_cut_off_is_undone()
    ensures { (m : Message) → (g : Group) × IsUndone g }
{}
