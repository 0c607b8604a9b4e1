//! What a group keeps: it holds of a new one, and each step keeps it.

ghost use Rattle.qsg_num.specs.declared.ids.Actor.{Actor};
ghost use Rattle.qsg_step.specs.declared.step.Step.{Step};
ghost use Rattle.qsg_step.specs.Needs.{MayMove};
ghost use Rattle.qsg_step.specs.States.{State};
ghost use Rattle.qsg_step.specs.Steps.{IsStep, IsUnmade};
ghost use Rattle.qsg_sound.specs.Founding.{IsNewState};
ghost use Rattle.qsg_sound.specs.Sound.{AreTypesKept, HaveIds};
ghost use Rattle.qsg_sysplex.specs.Kept.{IsKept};

use qsg_answered::{
    a_step_keeps_answers_fitting, a_step_that_wants_memory_keeps_answers_fitting,
    answers_of_a_new_group_fit,
};
use qsg_sound::{
    a_new_group_is_sound, a_sound_group_may_move, a_step_keeps_a_group_sound,
    a_step_that_wants_memory_keeps_a_group_sound,
};

/// It holds of a group in which nothing has happened yet.
pub fn a_new_group_is_kept()
    ensures { (s : State) → IsNewState s → IsKept s }
{
    a_new_group_is_sound();
    answers_of_a_new_group_fit();
}

/// Where it holds, the next step of each actor has what it needs.
pub fn a_kept_group_may_move()
    ensures { (s : State) (who : Actor) → IsKept s → MayMove who s }
{
    a_sound_group_may_move();
}

/// Each step keeps it, where the types of the group's parts keep what they keep.
pub fn a_step_keeps_a_group()
    ensures { (s r : State) (who : Actor) (step : Step) → IsKept s → HaveIds who s → AreTypesKept r → IsStep who s step r → IsKept r }
{
    a_step_keeps_a_group_sound();
    a_step_keeps_answers_fitting();
}

/// So does one that isn't made for want of memory.
pub fn a_step_that_wants_memory_keeps_a_group()
    ensures { (s r : State) → IsKept s → AreTypesKept r → IsUnmade s r → IsKept r }
{
    a_step_that_wants_memory_keeps_a_group_sound();
    a_step_that_wants_memory_keeps_answers_fitting();
}
