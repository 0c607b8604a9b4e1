//! What a STOP leaves, how far its maps are saved, and how many steps are left.

ghost use Rattle.std.specs.Prelude.{◌≡◌, ◌<◌, ◌≤◌, ◌+◌, ◌*◌, ℕ, true, false, length, Result, Ok};
ghost use Rattle.qsg_num.specs.declared.seats.Member.{Member};
ghost use Rattle.qsg_num.specs.declared.seats.StructNo.{StructNo};
ghost use Rattle.qsg_lists.specs.declared.parts.Connection.{Connection};
ghost use Rattle.qsg_group.specs.Changes.{Change};
ghost use Rattle.qsg_datasets.specs.Kept.{IsKept, set_in};
ghost use Rattle.qsg_manager.specs.Groups.{Rest};
ghost use Rattle.qsg_parts.specs.Owned.{Owned};
ghost use Rattle.qsg_stop.specs.declared.phases.Phase.{Phase};
ghost use Rattle.qsg_stop.specs.declared.phases.Phase.TheVariants.{Save};
ghost use Rattle.qsg_stop.specs.declared.phases.SaveCall.{SaveCall};
ghost use Rattle.qsg_stop.specs.declared.phases.SaveCall.TheVariants.{SyncGate};
ghost use Rattle.qsg_stop.specs.declared.phases.StopTurn.{StopTurn};
ghost use Rattle.qsg_stop.specs.declared.phases.StopTurn.TheVariants.{More, Stopped};
ghost use Rattle.qsg_stop.specs.declared.work.StopWork.{StopWork};
ghost use Rattle.qsg_stop.specs.Needs.{HasSets, MayStep};
ghost use Rattle.qsg_stop.specs.Steps.{begun, new_work, HasSaved, NextStop};
ghost use Rattle.qsg_stop.specs.Leaving.{LeavesRest, LeavesOthers, LeavesDevices, calls_device, calls_repository};
ghost use Rattle.qsg_stop.specs.Saving.{IsSavedAt, IsSafelySaved, IsReadAt};
ghost use Rattle.qsg_stop.specs.Pace.{steps_of_structure, left_of_stop};
ghost use Rattle.qsg_stop.specs.Machine.{group_in, MayBeginStop};

/// A STOP changes only what is its member's.
pub fn a_stop_leaves_other_members()
    ensures begun { (m : Member) (p : Owned) → LeavesOthers m p (begun m p) }
    ensures step { (w : StopWork) (p : Owned) (turn : StopTurn) (v : StopWork) (q : Owned) → NextStop w p turn v q → LeavesRest w.member p q }
{}

/// A step makes one call of a device, of the repository or of a structure at most: a call of a structure changes nothing.
pub fn a_step_makes_one_call()
    ensures device { (w : StopWork) (p : Owned) (turn : StopTurn) (v : StopWork) (q : Owned) → NextStop w p turn v q → calls_device w.phase ≡ false → LeavesDevices p q }
    ensures repository { (w : StopWork) (p : Owned) (turn : StopTurn) (v : StopWork) (q : Owned) → NextStop w p turn v q → calls_repository w.phase ≡ false → q.repo ≡ p.repo }
{}

/// The map is safely spelled in the header before its gate is opened. Where the fourth call succeeds too, the header is the
/// saved map of that epoch, and a power cut leaves it so.
pub fn a_map_is_saved()
    ensures begun { (m : Member) (p : Owned) → IsSavedAt (new_work m p).phase m (begun m p) }
    ensures goes_on { (w : StopWork) (p : Owned) (turn : StopTurn) (v : StopWork) (q : Owned) → IsSavedAt w.phase w.member p → NextStop w p turn v q → IsSavedAt v.phase w.member q }
    ensures beside { (m : Member) (phase : Phase) (p q : Owned) → ((s : StructNo) → IsReadAt (set_in m s p.datasets) (set_in m s q.datasets)) → IsSavedAt phase m p → IsSavedAt phase m q }
    ensures saved { (c : Connection) (w : StopWork) (p : Owned) (turn : StopTurn) (v : StopWork) (q : Owned) → w.phase ≡ Save c SyncGate → IsSavedAt w.phase w.member p → IsKept (set_in w.member c.structure p.datasets)
        → (has : HasSaved c SyncGate w p turn v q) → has.answer ≡ Ok tt → (set_in w.member c.structure p.datasets).contents.tells ≡ true → IsSafelySaved c.epoch (set_in w.member c.structure q.datasets) }
{}

/// Behind its check a STOP takes six steps for each structure and one more at most, and exactly as many where it saves each
/// map without a fault. Each step lowers how many are left, and the last one leaves none.
pub fn each_step_lowers_what_is_left()
    ensures begun { (m : Member) (p : Owned) → left_of_stop (new_work m p) (begun m p) ≡ steps_of_structure * length p.structures + 1 }
    ensures lowers { (w : StopWork) (p : Owned) (v : StopWork) (q : Owned) → MayStep w p → NextStop w p More v q → left_of_stop v q < left_of_stop w p }
    ensures saves { (c : Connection) (call : SaveCall) (w : StopWork) (p : Owned) (turn : StopTurn) (v : StopWork) (q : Owned) → w.phase ≡ Save c call → (has : HasSaved c call w p turn v q) → has.answer ≡ Ok tt → left_of_stop v q + 1 ≡ left_of_stop w p }
    ensures ends { (w : StopWork) (p : Owned) (v : StopWork) (q : Owned) → NextStop w p Stopped v q → left_of_stop w p ≡ 1 }
{}

/// The begin of a STOP is the machine's stop of the member; its steps leave the group as the machine sees it.
pub fn a_begin_is_a_stop()
    ensures begun { (rest : Rest) (m : Member) (p : Owned) → MayBeginStop m p → Change (group_in rest p) (group_in rest (begun m p)) }
    ensures step { (rest : Rest) (w : StopWork) (p : Owned) (turn : StopTurn) (v : StopWork) (q : Owned) → NextStop w p turn v q → group_in rest q ≡ group_in rest p }
{}
