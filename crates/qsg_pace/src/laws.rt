//! What each step of an actor makes of the number of steps that are left.

ghost use Rattle.std.specs.Prelude.{◌≡◌, ◌<◌, ◌≤◌, ◌⊎◌, Some};
ghost use Rattle.qsg_num.specs.declared.seats.Member.{Member};
ghost use Rattle.qsg_num.specs.declared.seats.TaskNo.{TaskNo};
ghost use Rattle.qsg_num.specs.declared.ids.Actor.{Actor};
ghost use Rattle.qsg_works.specs.declared.work.Work.{Work};
ghost use Rattle.qsg_works.specs.InHand.{work_of};
ghost use Rattle.qsg_step.specs.declared.step.Step.{Step};
ghost use Rattle.qsg_step.specs.declared.step.Step.TheVariants.{Moved};
ghost use Rattle.qsg_step.specs.States.{State};
ghost use Rattle.qsg_step.specs.Steps.{IsStep, IsUnmade};
ghost use Rattle.qsg_sound.specs.Sound.{IsSound, IsAsked};
ghost use Rattle.qsg_pace.specs.Pace.{unanswered, left};

/// A step that an actor makes, of whatever kind, leaves fewer steps than before: also one with which a member ends, or
/// starts again, and each one of a system task.
pub fn each_step_that_moves_leaves_less()
    ensures { (s r : State) (who : Actor) → IsSound s → IsStep who s Moved r → left r < left s }
{}

/// No step leaves more than before.
pub fn a_step_never_leaves_more()
    ensures { (s r : State) (who : Actor) (step : Step) → IsSound s → IsStep who s step r → left r ≤ left s }
{}

/// A step that isn't made changed nothing. One that found no memory left as many as before.
pub fn a_step_that_is_not_made_leaves_as_many()
    ensures still { (s r : State) (who : Actor) (step : Step) → IsStep who s step r → (step ≡ Moved) ⊎ (r ≡ s) }
    ensures unmade { (s r : State) → IsUnmade s r → left r ≡ left s }
{}

/// The directive that a request in progress does isn't answered.
pub fn a_request_in_progress_is_unanswered()
    ensures asked { (s : State) (m : Member) (t : TaskNo) (work : Work) → IsSound s → work_of m t s.works ≡ Some work → IsAsked m t work s.courses }
    ensures counted { (s : State) (m : Member) (t : TaskNo) (work : Work) → IsSound s → work_of m t s.works ≡ Some work → 1 ≤ unanswered s.courses }
{}
