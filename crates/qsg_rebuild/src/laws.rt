//! What a rebuild leaves, what its map is, how its steps go with what others do to blocks, and how many steps are left.

ghost use Rattle.std.specs.Prelude.{◌≡◌, ◌<◌, ◌≤◌, ◌+◌, ℕ, true, false, length, Result, Ok};
ghost use Rattle.qsg_num.specs.declared.seats.Member.{Member};
ghost use Rattle.qsg_num.specs.declared.seats.StructNo.{StructNo};
ghost use Rattle.qsg_num.specs.declared.ids.Block.{Block};
ghost use Rattle.qsg_num.specs.Seats.{structure_number};
ghost use Rattle.qsg_lists.specs.Structures.{IsSound, is_active};
ghost use Rattle.qsg_dataset.specs.Contents.{IsShut};
ghost use Rattle.qsg_space.specs.Spaces.{is_used};
ghost use Rattle.qsg_datasets.specs.Kept.{IsKept, set_in, used_in};
ghost use Rattle.qsg_blocks.specs.State.{Ground, AreTold};
ghost use Rattle.qsg_blocks.specs.Laws.{IsFitting};
ghost use Rattle.qsg_blocks.specs.Changes.{Change, IsMade};
ghost use Rattle.qsg_blocks.specs.Works.{FitsStart, IsOtherMembers};
ghost use Rattle.qsg_parts.specs.Owned.{Owned};
ghost use Rattle.qsg_rebuild.specs.declared.phases.RebuildTurn.{RebuildTurn};
ghost use Rattle.qsg_rebuild.specs.declared.phases.RebuildTurn.TheVariants.{More, Done};
ghost use Rattle.qsg_rebuild.specs.declared.phases.RebuildError.{RebuildError};
ghost use Rattle.qsg_rebuild.specs.declared.work.RebuildWork.{RebuildWork};
ghost use Rattle.qsg_rebuild.specs.Steps.{new_work, set_of, structure_of, NextRebuild};
ghost use Rattle.qsg_rebuild.specs.Needs.{AreWithin, MayStep};
ghost use Rattle.qsg_rebuild.specs.Leaving.{LeavesRest, IsElsewhere};
ghost use Rattle.qsg_rebuild.specs.Grounds.{ground_of};
ghost use Rattle.qsg_rebuild.specs.Fitting.{IsLawful, HasGate, FitsRebuild, MayAct, ended, is_listed};
ghost use Rattle.qsg_rebuild.specs.Pace.{left_of_rebuild};

use qsg_blocks::{a_starter_counts_blocks, a_starter_shuts_the_gate, every_change_keeps_starters};

/// Each block that an entry lists is one of its owner's data set, so that a rebuild may look at all entries.
pub fn listed_blocks_are_within()
    ensures { (m : Member) (g : Ground) → IsFitting g → AreWithin m (g.sets m).contents.blocks g.structure.entries }
{}

/// A step leaves all but its own data set as it was, and of that the size and what tasks have taken.
pub fn a_step_leaves_the_rest()
    ensures rest { (w : RebuildWork) (p : Owned) (result : Result RebuildTurn RebuildError) (v : RebuildWork) (q : Owned) → MayStep w p → NextRebuild w p result v q → LeavesRest w p q }
    ensures sets { (w : RebuildWork) (m : Member) (s : StructNo) (p : Owned) (result : Result RebuildTurn RebuildError) (v : RebuildWork) (q : Owned) → MayStep w p → NextRebuild w p result v q → IsElsewhere w m s
        → set_in m s q.datasets ≡ set_in m s p.datasets }
    ensures grounds { (w : RebuildWork) (s : StructNo) (p : Owned) (result : Result RebuildTurn RebuildError) (v : RebuildWork) (q : Owned) → MayStep w p → NextRebuild w p result v q
        → (structure_number s ≡ structure_number w.structure → ⊥) → ground_of s q ≡ ground_of s p }
{}

/// Each step is an action on the blocks of its structure, whatever its devices tell, and those that fail as well.
pub fn a_step_is_a_change_of_blocks()
    ensures may { (w : RebuildWork) (g : Ground) → (g.posts w.member).up ≡ false → IsKept (g.sets w.member) → (AreTold g.sets → IsLawful g × FitsRebuild w g) → MayAct w g }
    ensures acts { (w : RebuildWork) (p : Owned) (result : Result RebuildTurn RebuildError) (v : RebuildWork) (q : Owned) → MayStep w p → MayAct w (ground_of w.structure p) → NextRebuild w p result v q
        → Change (ground_of w.structure p) (ground_of w.structure q) }
{}

/// What a rebuild knows stays true, whatever is done to blocks but by a START or STOP of its member.
pub fn every_change_keeps_rebuilds()
    ensures { (w : RebuildWork) (g h : Ground) (c : Change g h) → IsOtherMembers w.member g h c → IsLawful g → FitsRebuild w g → FitsRebuild w h }
{
    every_change_keeps_starters();
}

/// A rebuild begins where its member is down. With each step its map goes on; where it ends, the map is the one with
/// which a member may come up, and the gate is shut.
pub fn a_rebuild_makes_a_map()
    ensures begins { (m : Member) (s : StructNo) (g : Ground) → (g.posts m).up ≡ false → HasGate m g → FitsRebuild (new_work m s) g }
    ensures goes_on { (w : RebuildWork) (p : Owned) (v : RebuildWork) (q : Owned) → MayStep w p → IsKept (set_of w p) → IsSound (structure_of w p) → IsLawful (ground_of w.structure p) → FitsRebuild w (ground_of w.structure p)
        → NextRebuild w p (Ok More) v q → FitsRebuild v (ground_of w.structure q) }
    ensures done { (w : RebuildWork) (p : Owned) (v : RebuildWork) (q : Owned) → MayStep w p → IsKept (set_of w p) → IsLawful (ground_of w.structure p) → FitsRebuild w (ground_of w.structure p) → NextRebuild w p (Ok Done) v q
        → FitsStart (ended w.member (ground_of w.structure q)) (ground_of w.structure q) }
{
    a_starter_counts_blocks();
}

/// A map that is made stays one with which its member may come up. Of an active structure, it uses exactly the blocks that
/// entries of its owner list.
pub fn a_map_that_is_made_is_exact()
    ensures stays { (m : Member) (g h : Ground) (c : Change g h) → IsOtherMembers m g h c → IsLawful g → FitsStart (ended m g) g → FitsStart (ended m h) h }
    ensures made { (m : Member) (g : Ground) → FitsStart (ended m g) g → IsMade m (g.sets m) g.structure }
    ensures exact { (m : Member) (g : Ground) → FitsStart (ended m g) g → is_active g.structure.state ≡ true → (b : Block) → is_used (used_in g.structure.epoch (g.sets m)) b ≡ is_listed m b g.structure.entries }
{
    every_change_keeps_starters();
    a_starter_shuts_the_gate();
}

/// A step that doesn't end a rebuild lowers how many are left, which are never more than one for each entry and five.
pub fn every_step_lowers_what_is_left()
    ensures most { (w : RebuildWork) (p : Owned) → left_of_rebuild w p ≤ length (structure_of w p).entries + 5 }
    ensures lowers { (w : RebuildWork) (p : Owned) (v : RebuildWork) (q : Owned) → MayStep w p → NextRebuild w p (Ok More) v q → left_of_rebuild v q < left_of_rebuild w p }
{}
