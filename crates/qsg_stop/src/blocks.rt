//! What a STOP is in the machine of blocks.

ghost use Rattle.std.specs.Prelude.{◌≡◌, ◌≤◌, true, false, length};
ghost use Rattle.qsg_num.specs.declared.seats.Member.{Member};
ghost use Rattle.qsg_num.specs.declared.seats.StructNo.{StructNo};
ghost use Rattle.qsg_num.specs.Seats.{member_number};
ghost use Rattle.qsg_blocks.specs.Changes.{Change};
ghost use Rattle.qsg_manager.specs.Storage.{manager_in};
ghost use Rattle.qsg_parts.specs.Owned.{Owned};
ghost use Rattle.qsg_stop.specs.declared.phases.Phase.{Phase};
ghost use Rattle.qsg_stop.specs.declared.phases.StopTurn.{StopTurn};
ghost use Rattle.qsg_stop.specs.declared.work.StopWork.{StopWork};
ghost use Rattle.qsg_stop.specs.Needs.{MayStep};
ghost use Rattle.qsg_stop.specs.Steps.{begun, new_work, NextStop};
ghost use Rattle.qsg_stop.specs.Ground.{ground_in};
ghost use Rattle.qsg_stop.specs.Stopping.{AreTrueAt, AreKept, HasLaws, IsIdle, IsOthers};

use qsg_blocks::{a_stopper_saves_its_map, every_change_keeps_stoppers};

/// The maps that a member had when it stopped are true of what entries list until they are saved, whatever others do.
pub fn the_maps_of_a_stop_stay_true()
    ensures begun { (m : Member) (p : Owned) → member_number m ≤ length p.managers → (manager_in m p.managers).up ≡ true → ((s : StructNo) → HasLaws s p) → ((s : StructNo) → IsIdle m s p) → AreTrueAt (new_work m p).phase m (begun m p) }
    ensures goes_on { (w : StopWork) (p : Owned) (turn : StopTurn) (v : StopWork) (q : Owned) → MayStep w p → AreKept w.member p → AreTrueAt w.phase w.member p → NextStop w p turn v q → AreTrueAt v.phase w.member q }
    ensures beside { (m : Member) (phase : Phase) (p q : Owned) → ((s : StructNo) → HasLaws s p) → ((s : StructNo) → IsOthers m (ground_in s p) (ground_in s q)) → AreTrueAt phase m p → AreTrueAt phase m q }
{
    a_stopper_saves_its_map();
    every_change_keeps_stoppers();
}

/// The begin of a STOP and each of its steps are actions on the blocks of each structure: what a step leaves in a header may
/// stand there, whether its call succeeds or not.
pub fn a_step_is_a_change_of_blocks()
    ensures begun { (s : StructNo) (m : Member) (p : Owned) → member_number m ≤ length p.managers → (manager_in m p.managers).up ≡ true → IsIdle m s p → Change (ground_in s p) (ground_in s (begun m p)) }
    ensures step { (s : StructNo) (w : StopWork) (p : Owned) (turn : StopTurn) (v : StopWork) (q : Owned) → MayStep w p → AreKept w.member p → HasLaws s p → (manager_in w.member p.managers).up ≡ false → AreTrueAt w.phase w.member p → NextStop w p turn v q
        → Change (ground_in s p) (ground_in s q) }
{
    a_stopper_saves_its_map();
}
