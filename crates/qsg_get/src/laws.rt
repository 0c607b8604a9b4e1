//! Each step of a get is a change of the machine, or leaves it as it is; what a refusal leaves, and when no message
//! comes.

ghost use Rattle.std.specs.Prelude.{◌≡◌, ◌≢◌, ℕ, false};
ghost use Rattle.std.specs.List.{AllByRecursion};
ghost use Rattle.qsg_num.specs.declared.ids.UnitName.{UnitName};
ghost use Rattle.qsg_lists.specs.declared.parts.Entry.{Entry};
ghost use Rattle.qsg_lists.specs.Entries.{waits_for};
ghost use Rattle.qsg_requests.specs.declared.replies.Reason.{Reason};
ghost use Rattle.qsg_requests.specs.declared.replies.Reason.TheVariants.{NoMessage, NotYet};
ghost use Rattle.qsg_requests.specs.declared.replies.Reply.TheVariants.{Refused};
ghost use Rattle.qsg_requests.specs.declared.replies.Turn.TheVariants.{Ended, More};
ghost use Rattle.qsg_manager.specs.Facilities.{structure_in};
ghost use Rattle.qsg_manager.specs.Groups.{Rest};
ghost use Rattle.qsg_parts.specs.Owned.{Owned};
ghost use Rattle.qsg_get.specs.declared.checking.Terms.{Terms};
ghost use Rattle.qsg_get.specs.declared.phases.Phase.TheVariants.{Take};
ghost use Rattle.qsg_get.specs.Answers.{LeavesUnit};
ghost use Rattle.qsg_get.specs.Works.{Work};
ghost use Rattle.qsg_get.specs.Steps.{next_get};
ghost use Rattle.qsg_get.specs.Needs.{MayStep, MayPass};
ghost use Rattle.qsg_get.specs.Moves.{MovesTo, MayMove, seen};

/// What a step leaves of structures and members' storage is what one action of the machine leaves, or what was there.
pub fn a_step_of_a_get_is_a_change()
    ensures { (rest : Rest) (work : Work) (p : Owned) → MayMove work p → MovesTo (seen rest p) (seen rest (next_get work p).parts) }
{}

/// A refusal leaves structures and units as they were, but for one of a body that stands outside its entry.
pub fn a_refused_get_leaves_its_unit()
    ensures { (work : Work) (p : Owned) (reason : Reason) → reason ≢ NotYet → (next_get work p).turn ≡ Ended (Refused reason) → LeavesUnit p (next_get work p).parts }
{}

/// 2033 comes only where no message of the queue on offer is asked for.
pub fn no_message_comes_only_where_none_waits()
    ensures { (work : Work) (p : Owned) (u : UnitName) (terms : Terms) (epoch : ℕ) → work.phase ≡ Take u terms epoch → (next_get work p).turn ≡ Ended (Refused NoMessage)
        → AllByRecursion (λ (x : Entry). waits_for work.queue work.select x ≡ false) (structure_in terms.structure p.structures).entries }
{}

/// What a step that goes on leaves is what the next step needs, while nothing else happens.
pub fn a_get_that_goes_on_may_go_on()
    ensures may { (work : Work) (p : Owned) → MayStep work p → MayPass work p → (next_get work p).turn ≡ More → MayStep (record work { phase = (next_get work p).phase }) (next_get work p).parts }
    ensures pass { (work : Work) (p q : Owned) → (next_get work p).turn ≡ More → MayPass (record work { phase = (next_get work p).phase }) q }
{}
