//! What holds of the data sets of a group, for all of them: where a call leaves them as they were, which blocks a task
//! is given, and which are used in a map after each call.

ghost use Rattle.std.specs.Prelude.{◌≡◌, ◌≤◌, ◌<◌, ◌+◌, ◌==◌, ◌&&◌, ◌||◌, ℕ, Bool, true, false, not, List, length, map, replicate};
ghost use Rattle.std.specs.List.{AllByRecursion};
ghost use Rattle.std.specs.List.Sorted.{IsStrictlyIncreasing};
ghost use Rattle.qsg_num.specs.declared.seats.Member.{Member};
ghost use Rattle.qsg_num.specs.declared.seats.StructNo.{StructNo};
ghost use Rattle.qsg_num.specs.declared.seats.TaskNo.{TaskNo};
ghost use Rattle.qsg_num.specs.declared.ids.Block.{Block};
ghost use Rattle.qsg_num.specs.Seats.{member_number, structure_number, task_number};
ghost use Rattle.qsg_space.specs.Spaces.{free_count, is_used, is_free, has_block, number_of};
ghost use Rattle.qsg_dataset.specs.Contents.{IsSaved};
ghost use Rattle.qsg_datasets.specs.declared.member_data_set.Found.{Found};
ghost use Rattle.qsg_datasets.specs.declared.member_data_set.Hand.{Hand};
ghost use Rattle.qsg_datasets.specs.Kept.{KeptSet, IsKept, HasSet, no_hand, sets_of, with_sets_of, set_in, with_set, stands, used_in, hand_of, with_hand, given, taken, given_back, freed, claimed, emptied, emptied_all};
ghost use Rattle.qsg_datasets.specs.Calls.{IsStorageSame, IsCut, AreCut, IsLoaded};

// ---- where a data set stands

/// A data set that is put in the place of another stands there, and all others are as they were.
pub fn one_data_set_changes()
    ensures here { (m : Member) (s : StructNo) (set : KeptSet) (sets : List (List KeptSet)) → HasSet m s sets → set_in m s (with_set m s set sets) ≡ set }
    ensures other_structure { (m : Member) (s t : StructNo) (set : KeptSet) (sets : List (List KeptSet)) → HasSet m s sets → (structure_number t ≡ structure_number s → ⊥) → set_in m t (with_set m s set sets) ≡ set_in m t sets }
    ensures other_member { (m k : Member) (s t : StructNo) (set : KeptSet) (sets : List (List KeptSet)) → (member_number k ≡ member_number m → ⊥) → set_in k t (with_set m s set sets) ≡ set_in k t sets }
    ensures itself { (m : Member) (s : StructNo) (sets : List (List KeptSet)) → with_set m s (set_in m s sets) sets ≡ sets }
{}

/// The group has the same data sets after one has changed.
pub fn data_sets_stay()
    ensures has { (m k : Member) (s t : StructNo) (set : KeptSet) (sets : List (List KeptSet)) → HasSet k t sets → HasSet k t (with_set m s set sets) }
    ensures members { (m : Member) (s : StructNo) (set : KeptSet) (sets : List (List KeptSet)) → length (with_set m s set sets) ≡ length sets }
    ensures structures { (m k : Member) (s : StructNo) (set : KeptSet) (sets : List (List KeptSet)) → length (sets_of k (with_set m s set sets)) ≡ length (sets_of k sets) }
{}

/// A cut of a member's data sets is one of each, and the group has the same data sets then.
pub fn each_data_set_of_a_member_is_cut()
    ensures each { (m : Member) (s : StructNo) (row : List KeptSet) (sets : List (List KeptSet)) → HasSet m s sets → AreCut (sets_of m sets) row → IsCut (set_in m s sets) (set_in m s (with_sets_of m row sets)) }
    ensures other_member { (m k : Member) (t : StructNo) (row : List KeptSet) (sets : List (List KeptSet)) → (member_number k ≡ member_number m → ⊥) → set_in k t (with_sets_of m row sets) ≡ set_in k t sets }
    ensures has { (m k : Member) (t : StructNo) (row : List KeptSet) (sets : List (List KeptSet)) → HasSet k t sets → AreCut (sets_of m sets) row → HasSet k t (with_sets_of m row sets) }
    ensures members { (m : Member) (row : List KeptSet) (sets : List (List KeptSet)) → length (with_sets_of m row sets) ≡ length sets }
    ensures structures { (m k : Member) (row : List KeptSet) (sets : List (List KeptSet)) → AreCut (sets_of m sets) row → length (sets_of k (with_sets_of m row sets)) ≡ length (sets_of k sets) }
{}

/// A member that is cleared keeps nothing of each data set, and the group has the same data sets then.
pub fn each_data_set_of_a_member_is_emptied()
    ensures each { (m : Member) (s : StructNo) (sets : List (List KeptSet)) → HasSet m s sets → set_in m s (emptied_all m sets) ≡ emptied (set_in m s sets) }
    ensures other_member { (m k : Member) (t : StructNo) (sets : List (List KeptSet)) → (member_number k ≡ member_number m → ⊥) → set_in k t (emptied_all m sets) ≡ set_in k t sets }
    ensures has { (m k : Member) (t : StructNo) (sets : List (List KeptSet)) → HasSet k t sets → HasSet k t (emptied_all m sets) }
    ensures members { (m : Member) (sets : List (List KeptSet)) → length (emptied_all m sets) ≡ length sets }
    ensures structures { (m k : Member) (sets : List (List KeptSet)) → length (sets_of k (emptied_all m sets)) ≡ length (sets_of k sets) }
{}

// ---- what a member keeps

/// Each call keeps what every data set of a member keeps.
pub fn each_call_keeps_a_data_set()
    ensures taken { (t : TaskNo) (epoch n : ℕ) (set : KeptSet) → IsKept set → IsKept (taken t epoch n set) }
    ensures given_back { (t : TaskNo) (set : KeptSet) → IsKept set → IsKept (given_back t set) }
    ensures exchanged { (t : TaskNo) (hand : Hand) (set : KeptSet) → IsKept set → IsKept (with_hand t hand set) }
    ensures freed { (epoch : ℕ) (blocks : List Block) (set : KeptSet) → IsKept set → IsKept (freed epoch blocks set) }
    ensures claimed { (blocks : List Block) (set : KeptSet) → IsKept set → IsKept (claimed blocks set) }
    ensures emptied { (set : KeptSet) → IsKept set → IsKept (emptied set) }
    ensures device { (old new : KeptSet) → IsKept old → IsStorageSame old new → IsKept new }
    ensures cut { (old new : KeptSet) → IsKept old → IsCut old new → IsKept new }
    ensures loaded { (epoch : ℕ) (found : Found) (old new : KeptSet) → IsKept old → IsLoaded epoch found old new → IsKept new }
{}

/// A task has what was put in its hand, and the other tasks what they had.
pub fn one_hand_changes()
    ensures here { (t : TaskNo) (hand : Hand) (set : KeptSet) → IsKept set → hand_of t (with_hand t hand set) ≡ hand }
    ensures other { (t u : TaskNo) (hand : Hand) (set : KeptSet) → (task_number u ≡ task_number t → ⊥) → hand_of u (with_hand t hand set) ≡ hand_of u set }
    ensures taken { (t : TaskNo) (epoch n : ℕ) (set : KeptSet) → IsKept set → hand_of t (taken t epoch n set) ≡ record { epoch = epoch; blocks = given epoch n set } }
    ensures other_takes { (t u : TaskNo) (epoch n : ℕ) (set : KeptSet) → (task_number u ≡ task_number t → ⊥) → hand_of u (taken t epoch n set) ≡ hand_of u set }
    ensures given_back { (t : TaskNo) (set : KeptSet) → IsKept set → hand_of t (given_back t set) ≡ no_hand }
    ensures other_gives_back { (t u : TaskNo) (set : KeptSet) → (task_number u ≡ task_number t → ⊥) → hand_of u (given_back t set) ≡ hand_of u set }
{}

/// After a power cut, as after its member's storage was cleared, no map stands and no task has taken blocks.
pub fn nothing_is_kept_through_a_cut()
    ensures map { (epoch : ℕ) (old new : KeptSet) → IsCut old new → stands epoch new ≡ false }
    ensures hands { (t : TaskNo) (old new : KeptSet) → IsCut old new → hand_of t new ≡ no_hand }
    ensures emptied { (t : TaskNo) (set : KeptSet) → hand_of t (emptied set) ≡ no_hand }
{}

// ---- which blocks are used

/// The blocks that a task is given are as many as it asked for, each once, free before and in range.
pub fn given_blocks_are_free()
    ensures free { (epoch n : ℕ) (set : KeptSet) (b : Block) → has_block b (given epoch n set) ≡ true → is_free (used_in epoch set) b ≡ true }
    ensures within { (epoch n : ℕ) (set : KeptSet) → IsKept set → AllByRecursion (λ (b : Block). b.number < set.contents.blocks) (given epoch n set) }
    ensures rise { (epoch n : ℕ) (set : KeptSet) → IsStrictlyIncreasing (map number_of (given epoch n set)) }
    ensures all { (epoch n : ℕ) (set : KeptSet) → n ≤ free_count (used_in epoch set) → length (given epoch n set) ≡ n }
{}

/// In the map that stands after a task has taken blocks these are used besides those that were.
pub fn taken_blocks_are_used()
    ensures map { (t : TaskNo) (epoch n : ℕ) (set : KeptSet) → stands epoch (taken t epoch n set) ≡ true }
    ensures used { (t : TaskNo) (epoch n : ℕ) (set : KeptSet) (b : Block) → is_used (used_in epoch (taken t epoch n set)) b ≡ (is_used (used_in epoch set) b || has_block b (given epoch n set)) }
    ensures count { (t : TaskNo) (epoch n : ℕ) (set : KeptSet) → n ≤ free_count (used_in epoch set) → free_count (used_in epoch (taken t epoch n set)) + n ≡ free_count (used_in epoch set) }
{}

/// Where the map stands for the epoch of blocks that are made free, exactly these aren't used any more; else it is as it
/// was.
pub fn freed_blocks_are_free()
    ensures map { (epoch e : ℕ) (blocks : List Block) (set : KeptSet) → stands e (freed epoch blocks set) ≡ stands e set }
    ensures used { (epoch e : ℕ) (blocks : List Block) (set : KeptSet) (b : Block) → is_used (used_in e (freed epoch blocks set)) b ≡ (is_used (used_in e set) b && not ((e == epoch) && has_block b blocks)) }
    ensures given_back { (t : TaskNo) (e : ℕ) (set : KeptSet) (b : Block) → is_used (used_in e (given_back t set)) b ≡ (is_used (used_in e set) b && not ((e == (hand_of t set).epoch) && has_block b (hand_of t set).blocks)) }
    ensures map_given_back { (t : TaskNo) (e : ℕ) (set : KeptSet) → stands e (given_back t set) ≡ stands e set }
{}

/// Blocks that are claimed are used besides those that were, where a map stands.
pub fn claimed_blocks_are_used()
    ensures map { (e : ℕ) (blocks : List Block) (set : KeptSet) → stands e (claimed blocks set) ≡ stands e set }
    ensures used { (e : ℕ) (blocks : List Block) (set : KeptSet) (b : Block) → IsKept set → stands e set ≡ true → b.number < set.contents.blocks
        → is_used (used_in e (claimed blocks set)) b ≡ (is_used (used_in e set) b || has_block b blocks) }
{}

/// A map that is loaded stands for its epoch: it is the saved one, or else all blocks are free in it.
pub fn a_loaded_map_stands()
    ensures map { (epoch : ℕ) (found : Found) (old new : KeptSet) → IsLoaded epoch found old new → stands epoch new ≡ true }
    ensures saved { (epoch : ℕ) (found : Found) (old new : KeptSet) → IsLoaded epoch found old new → found.has_map ≡ true → old.contents.tells ≡ true → IsSaved epoch old.contents.blocks (used_in epoch new) old.contents.bytes }
    ensures blank { (epoch : ℕ) (found : Found) (old new : KeptSet) → IsLoaded epoch found old new → found.has_map ≡ false → used_in epoch new ≡ replicate old.contents.blocks false }
    ensures hands { (epoch : ℕ) (found : Found) (old new : KeptSet) (t : TaskNo) → IsLoaded epoch found old new → hand_of t new ≡ hand_of t old }
{}
