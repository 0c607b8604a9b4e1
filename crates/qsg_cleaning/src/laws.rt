//! What a cleaning leaves, which entry it forgets, and how many steps are left.

ghost use Rattle.std.specs.Prelude.{◌≡◌, ◌<◌, ◌≤◌, ◌+◌, ℕ, true, false, Some};
ghost use Rattle.qsg_num.specs.declared.seats.Member.{Member};
ghost use Rattle.qsg_num.specs.declared.seats.StructNo.{StructNo};
ghost use Rattle.qsg_num.specs.declared.ids.EntryId.{EntryId};
ghost use Rattle.qsg_lists.specs.declared.parts.Connection.{Connection};
ghost use Rattle.qsg_lists.specs.Entries.{AreInOrder};
ghost use Rattle.qsg_datasets.specs.Kept.{set_in, stands};
ghost use Rattle.qsg_blocks.specs.Changes.{Change as BlocksChange};
ghost use Rattle.qsg_manager.specs.Groups.{Rest};
ghost use Rattle.qsg_manager.specs.Storage.{manager_in};
ghost use Rattle.qsg_parts.specs.Owned.{Owned};
ghost use Rattle.qsg_cleaning.specs.declared.phases.CleaningTurn.{CleaningTurn};
ghost use Rattle.qsg_cleaning.specs.declared.phases.CleaningTurn.TheVariants.{More, Done};
ghost use Rattle.qsg_cleaning.specs.declared.work.CleaningWork.{CleaningWork};
ghost use Rattle.qsg_cleaning.specs.Finding.{first_to_clean, has_cleaning, AreAbove};
ghost use Rattle.qsg_cleaning.specs.Needs.{HasStructure, MayClean};
ghost use Rattle.qsg_cleaning.specs.Steps.{new_work, structure_of, blocks_of, next_of};
ghost use Rattle.qsg_cleaning.specs.Leaving.{LeavesRest};
ghost use Rattle.qsg_cleaning.specs.Forgetting.{HasForgotten, HasCleaned, AreFree, count_to_clean};
ghost use Rattle.qsg_cleaning.specs.Ground.{ground_in};
ghost use Rattle.qsg_cleaning.specs.Machine.{group_in, IsStep};
ghost use Rattle.qsg_cleaning.specs.Pace.{all_to_clean, left_before, left_with};

/// A cleaning that is begun is of a structure that the group has. It stays its member's and in its structure, and each
/// step leaves what the next one needs.
pub fn a_cleaning_may_go_on()
    ensures found { (m : Member) (s : StructNo) (p : Owned) → first_to_clean m p ≡ Some s → HasStructure s p }
    ensures member { (w : CleaningWork) (p : Owned) → (next_of w p).work.member ≡ w.member }
    ensures structure { (w : CleaningWork) (p : Owned) → (next_of w p).work.structure ≡ w.structure }
    ensures may { (w : CleaningWork) (p : Owned) → MayClean w.member w.structure p → MayClean w.member w.structure (next_of w p).parts }
{}

/// A step leaves all but the entries of its structure and the map of its member's data set for it.
pub fn a_step_leaves_the_rest()
    ensures { (w : CleaningWork) (p : Owned) → MayClean w.member w.structure p → LeavesRest w.member w.structure p (next_of w p).parts }
{}

/// Nothing goes but a removed entry whose body stands in the member's data set, and that only in the step that forgets it.
pub fn only_an_entry_to_clean_goes()
    ensures { (w : CleaningWork) (p : Owned) → HasCleaned w.phase w p (next_of w p).parts }
{}

/// With an entry that is forgotten the member has one less to forget, and its blocks are free. A map of another epoch stays
/// as it is.
pub fn a_forgotten_entry_frees_its_blocks()
    ensures fewer { (m : Member) (c : Connection) (id : EntryId) (p q : Owned) → MayClean m c.structure p → HasForgotten m c id p q
        → count_to_clean m (structure_of c.structure q).entries + 1 ≡ count_to_clean m (structure_of c.structure p).entries }
    ensures free { (m : Member) (c : Connection) (id : EntryId) (p q : Owned) → MayClean m c.structure p → (has : HasForgotten m c id p q)
        → AreFree c.epoch (blocks_of has.entry.place) (set_in m c.structure p.datasets) (set_in m c.structure q.datasets) }
    ensures kept { (m : Member) (c : Connection) (id : EntryId) (p q : Owned) → MayClean m c.structure p → HasForgotten m c id p q → stands c.epoch (set_in m c.structure p.datasets) ≡ false
        → set_in m c.structure q.datasets ≡ set_in m c.structure p.datasets }
{}

/// A member has a cleaning to do exactly where an entry of an active structure is left to it to forget.
pub fn a_cleaning_is_to_do_where_an_entry_is_left()
    ensures some { (m : Member) (p : Owned) → has_cleaning m p ≡ true → 0 < all_to_clean m p }
    ensures none { (m : Member) (p : Owned) → AreAbove p → has_cleaning m p ≡ false → all_to_clean m p ≡ 0 }
{}

/// Each step lowers how many are left to the member's system task, and so does the end of a cleaning. A cleaning that is
/// begun where there is an entry to forget raises nothing.
pub fn each_step_lowers_what_is_left()
    ensures begun { (m : Member) (s : StructNo) (p : Owned) → first_to_clean m p ≡ Some s → left_with (new_work m s) p ≤ left_before m p }
    ensures lowers { (w : CleaningWork) (p : Owned) → MayClean w.member w.structure p → AreInOrder (structure_of w.structure p).entries → (next_of w p).turn ≡ More → left_with (next_of w p).work (next_of w p).parts < left_with w p }
    ensures ends { (w : CleaningWork) (p : Owned) → MayClean w.member w.structure p → AreInOrder (structure_of w.structure p).entries → (next_of w p).turn ≡ Done → left_before w.member (next_of w p).parts < left_with w p }
{}

/// Each step is an action of the machine, or leaves the group as the machine sees it.
pub fn a_step_is_a_change()
    ensures { (rest : Rest) (w : CleaningWork) (p : Owned) → MayClean w.member w.structure p → IsStep (group_in rest p) (group_in rest (next_of w p).parts) }
{}

/// Each step is an action on the blocks of each structure, or leaves them: the owner of a removed entry forgets it.
pub fn a_step_is_a_change_of_blocks()
    ensures { (s : StructNo) (w : CleaningWork) (p : Owned) → MayClean w.member w.structure p → (manager_in w.member p.managers).up ≡ true → BlocksChange (ground_in s p) (ground_in s (next_of w p).parts) }
{}
