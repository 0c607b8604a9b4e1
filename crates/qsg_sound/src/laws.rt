//! A new group is sound, and each step keeps a group so.

ghost use Rattle.std.specs.Prelude.{◌≡◌, ◌≤◌, length};
ghost use Rattle.qsg_num.specs.declared.ids.Actor.{Actor};
ghost use Rattle.qsg_step.specs.declared.step.Step.{Step};
ghost use Rattle.qsg_step.specs.Needs.{MayMove};
ghost use Rattle.qsg_step.specs.States.{State, IsWithin};
ghost use Rattle.qsg_step.specs.Steps.{IsStep, IsUnmade};
ghost use Rattle.qsg_sound.specs.Founding.{IsNewState};
ghost use Rattle.qsg_sound.specs.Sound.{IsSound, AreTypesKept, HaveIds};

/// A group in which nothing has happened yet is sound.
pub fn a_new_group_is_sound()
    ensures { (s : State) → IsNewState s → IsSound s }
{}

/// In a sound group the next step of each actor has what it needs.
pub fn a_sound_group_may_move()
    ensures { (s : State) (who : Actor) → IsSound s → IsWithin who (length s.parts.managers) → MayMove who s }
{}

/// Each step of an actor of the group keeps it sound, where the types of its parts keep what they keep.
pub fn a_step_keeps_a_group_sound()
    ensures { (s r : State) (who : Actor) (step : Step) → IsSound s → HaveIds who s → AreTypesKept r → IsStep who s step r → IsSound r }
{}

/// So does one that isn't made for want of memory.
pub fn a_step_that_wants_memory_keeps_a_group_sound()
    ensures { (s r : State) → IsSound s → AreTypesKept r → IsUnmade s r → IsSound r }
{}
