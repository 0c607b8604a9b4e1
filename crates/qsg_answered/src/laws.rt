//! The answers fit, at first and after each step.

ghost use Rattle.std.specs.Prelude.{ℕ, ◌≡◌, Some, None};
ghost use Rattle.qsg_num.specs.declared.ids.Actor.{Actor};
ghost use Rattle.qsg_num.specs.declared.ids.Actor.TheVariants.{Operator, Task};
ghost use Rattle.qsg_num.specs.declared.seats.Member.{Member};
ghost use Rattle.qsg_num.specs.declared.seats.TaskNo.{TaskNo};
ghost use Rattle.qsg_objects.specs.declared.directives.Directive.TheVariants.{Crash, Start};
ghost use Rattle.qsg_agenda.specs.Courses.{next_of};
ghost use Rattle.qsg_steady.specs.Steady.{AreTelling};
ghost use Rattle.qsg_step.specs.declared.step.Step.{Step};
ghost use Rattle.qsg_step.specs.States.{State, is_member_up};
ghost use Rattle.qsg_step.specs.Steps.{IsStartStep, IsStep, IsUnmade};
ghost use Rattle.qsg_step.specs.Waiting.{system_of};
ghost use Rattle.qsg_sound.specs.Founding.{IsNewState};
ghost use Rattle.qsg_sound.specs.Sound.{IsSound};
ghost use Rattle.qsg_answered.specs.Broken.{IsToldOnce};
ghost use Rattle.qsg_answered.specs.Fits.{AreFitting};
ghost use Rattle.qsg_answered.specs.Operated.{IsCrashTold, IsStartTold};

/// In a new group nothing is answered, and so all answers fit.
pub fn answers_of_a_new_group_fit()
    ensures { (s : State) → IsNewState s → AreFitting s }
{}

/// A step of an actor that leaves the group sound leaves its answers fitting: where it gives an answer, this one fits too.
pub fn a_step_keeps_answers_fitting()
    ensures { (s r : State) (who : Actor) (step : Step) → IsSound s → IsSound r → (AreTelling s.parts → AreFitting s) → IsStep who s step r → AreTelling r.parts → AreFitting r }
{}

/// A step that wants memory leaves the answers fitting.
pub fn a_step_that_wants_memory_keeps_answers_fitting()
    ensures { (s r : State) → IsSound s → (AreTelling s.parts → AreFitting s) → IsUnmade s r → AreTelling r.parts → AreFitting r }
{}

/// A task is answered one 2009 for each end of its member that found it at work, now or with its next request, and no other.
pub fn a_task_is_told_once_of_an_end_of_its_member()
    ensures { (s r : State) (who : Actor) (step : Step) (m : Member) (t : TaskNo) → IsSound s → AreTelling s.parts → AreFitting s → system_of (Task m t) ≡ None → IsStep who s step r → IsToldOnce m t s r }
{}

/// A CRASH of a member that is up ends exactly one incarnation: the one in which the member is. One of a member that is down
/// changes nothing but that the operator is told so.
pub fn a_crash_ends_one_incarnation()
    ensures { (s r : State) (step : Step) (m : Member) (pick : ℕ) → IsSound s → next_of Operator s.courses ≡ Some (Crash m pick) → IsStep Operator s step r → IsCrashTold (is_member_up m s) m pick s r }
{}

/// A START answers with an incarnation exactly where it has brought its member up as that one, the next after the last.
pub fn a_start_gives_the_next_incarnation()
    ensures { (s r : State) (m : Member) → IsSound s → next_of Operator s.courses ≡ Some (Start m) → (made : IsStartStep m (Start m) s r) → IsStartTold m made.turn s r }
{}
