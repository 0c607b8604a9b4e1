//! What follows from what each step of a put does.

ghost use Rattle.std.specs.Prelude.{◌≡◌, ◌≤◌, ℕ, Ok, length};
ghost use Rattle.qsg_num.specs.declared.seats.Member.{Member};
ghost use Rattle.qsg_num.specs.declared.ids.EntryId.{EntryId};
ghost use Rattle.qsg_num.specs.declared.ids.UnitName.{UnitName};
ghost use Rattle.qsg_num.specs.Seats.{structure_number};
ghost use Rattle.qsg_objects.specs.Registry.{Registry};
ghost use Rattle.qsg_requests.specs.declared.words.PutWords.{PutWords};
ghost use Rattle.qsg_requests.specs.declared.replies.Reply.TheVariants as reply;
ghost use Rattle.qsg_requests.specs.declared.replies.Turn.TheVariants as turn;
ghost use Rattle.qsg_offload.specs.declared.rule.Placed.TheVariants as placed;
ghost use Rattle.qsg_group.specs.Group.{Group};
ghost use Rattle.qsg_group.specs.Changes.{Change};
ghost use Rattle.qsg_manager.specs.Actions.{IsMember};
ghost use Rattle.qsg_manager.specs.Groups.{Rest, group_of};
ghost use Rattle.qsg_logs.specs.Kept.{log_in};
ghost use Rattle.qsg_parts.specs.Owned.{Owned};
ghost use Rattle.qsg_put.specs.declared.checking.Terms.{Terms};
ghost use Rattle.qsg_put.specs.declared.phases.Phase.TheVariants as phase;
ghost use Rattle.qsg_put.specs.Checking.{check_answer};
ghost use Rattle.qsg_put.specs.Works.{Work, IsSound};
ghost use Rattle.qsg_put.specs.Steps.{next_put};
ghost use Rattle.qsg_put.specs.Needs.{MayStep};
ghost use Rattle.qsg_put.specs.Outcomes.{IsStep, IsAtWork, AreTermsOf, IsPut, IsSameLog, AreOwn};

use qsg_manager::{a_draw_is_a_change, a_write_is_a_put};

/// A put that passes the check has the terms of its words, or else of its queue.
pub fn terms_are_those_of_the_words_or_the_queue()
    ensures { (objects : Registry) (words : PutWords) (operations : ℕ) (terms : Terms) → check_answer objects words operations ≡ Ok terms → AreTermsOf words operations terms objects }
{}

/// Each step of a put leaves structures and members' storage as they are, or makes one shared action: the task draws a
/// name, or puts the message.
pub fn a_step_of_a_put_is_a_change()
    ensures { (rest : Rest) (work : Work) (p : Owned) → MayStep work p → IsSound work.member work.words.body work.phase → IsAtWork work p.managers →
        IsStep (group_of rest p.structures p.managers) (group_of rest (next_put work p).parts.structures (next_put work p).parts.managers) }
{
    a_draw_is_a_change();
    a_write_is_a_put();
}

/// Where a put is answered PutOk, the message that was asked for is in its structure, and is the last one that the unit
/// put. So it is this message that the history has once the unit is committed.
pub fn the_message_is_the_one_that_was_asked_for()
    ensures { (work : Work) (p : Owned) (u : UnitName) (terms : Terms) (epoch : ℕ) (id : EntryId) → IsMember work.member p.managers → structure_number terms.structure ≤ length p.structures →
        work.phase ≡ phase.Write u terms epoch → (next_put work p).turn ≡ turn.Ended (reply.PutOk id placed.Inside) → IsPut work u terms epoch id p (next_put work p).parts }
{}

/// The name that a task holds is of its member, whatever happens.
pub fn names_stay_of_their_members()
    ensures { (g h : Group) → Change g h → AreOwn g.tasks → AreOwn h.tasks }
{}

/// A put leaves the data sets, the repository, the objects and the history as they are, and of each log all but what is
/// reserved and how far the records of units fill their pages.
pub fn a_put_leaves_the_rest()
    ensures datasets { (work : Work) (p : Owned) → (next_put work p).parts.datasets ≡ p.datasets }
    ensures repo { (work : Work) (p : Owned) → (next_put work p).parts.repo ≡ p.repo }
    ensures objects { (work : Work) (p : Owned) → (next_put work p).parts.objects ≡ p.objects }
    ensures history { (work : Work) (p : Owned) → (next_put work p).parts.history ≡ p.history }
    ensures logs { (work : Work) (p : Owned) (k : Member) → IsSameLog (log_in k p.logs) (log_in k (next_put work p).parts.logs) }
{}
