//! Which marks steps set: one at most, of the incarnation that is up, and only a step that answers a request.

ghost use Rattle.std.specs.Prelude.{ℕ, ◌+◌, ◌≡◌, ◌<◌, ◌≤◌, List, length, Result};
ghost use Rattle.qsg_num.specs.declared.seats.Member.{Member};
ghost use Rattle.qsg_num.specs.declared.ids.Incarnation.{Incarnation};
ghost use Rattle.qsg_repo.specs.Calls.{next_incarnation};
ghost use Rattle.qsg_parts.specs.Owned.{Owned, HasMember};
ghost use Rattle.qsg_requests.specs.declared.replies.Turn.{Turn};
ghost use Rattle.qsg_commit.specs.declared.phases.StepError.{StepError};
ghost use Rattle.qsg_works.specs.declared.work.Work.{Work};
ghost use Rattle.qsg_works.specs.Steps.{NextWork};
ghost use Rattle.qsg_steady.specs.Steady.{IsSteady};
ghost use Rattle.qsg_steady.specs.Founding.{IsNew};
ghost use Rattle.qsg_fit.specs.Requests.{IsRequestOf, IsSteadyBeside};
ghost use Rattle.qsg_crash.specs.Crashes.{IsCrash};
ghost use Rattle.qsg_start.specs.declared.phases.NoMemory.{NoMemory as StartLacks};
ghost use Rattle.qsg_start.specs.declared.phases.StartTurn.{StartTurn};
ghost use Rattle.qsg_start.specs.Works.{Work as StartWork};
ghost use Rattle.qsg_start.specs.Steps.{NextStart};
ghost use Rattle.qsg_peer.specs.declared.phases.FailedLife.{FailedLife};
ghost use Rattle.qsg_peer.specs.declared.phases.NoMemory.{NoMemory};
ghost use Rattle.qsg_peer.specs.declared.phases.PeerTurn.{PeerTurn};
ghost use Rattle.qsg_peer.specs.Works.{Work as PeerWork};
ghost use Rattle.qsg_peer.specs.Needs.{MayStepAt};
ghost use Rattle.qsg_peer.specs.Steps.{NextPeer};
ghost use Rattle.qsg_peer.specs.Machine.{IsOver, AreClear};
ghost use Rattle.qsg_peer.specs.Sweeping.{AreAbove};
ghost use Rattle.qsg_lives.specs.Marks.{marks_left, answers_in, IsUp, AreGiven, AreEmptyUnlessActive};

/// A step of a request sets one mark of an incarnation at most, and only where it answers; one that it sets is of the
/// incarnation that is up.
pub fn a_request_sets_one_mark_at_most()
    ensures most { (a b : ℕ) (life : FailedLife) (before work : Work) (p q : Owned) (result : Result Turn StepError) → IsSteadyBeside a b before p → IsRequestOf before p → NextWork before p result work q → marks_left life q ≤ marks_left life p + answers_in result }
    ensures own { (a b : ℕ) (life : FailedLife) (before work : Work) (p q : Owned) (result : Result Turn StepError) → IsSteadyBeside a b before p → IsRequestOf before p → NextWork before p result work q → marks_left life p < marks_left life q → IsUp life p }
{}

/// All other steps set none: a peer's may take one off, and a START and a crash leave all marks. A new group has none.
pub fn other_steps_set_no_marks()
    ensures peers { (life : FailedLife) (skip : List (Member × Incarnation)) (w : PeerWork) (p : Owned) (result : Result PeerTurn NoMemory) (v : PeerWork) (q : Owned) → MayStepAt w.phase p → NextPeer skip w p result v q → marks_left life q ≤ marks_left life p }
    ensures starts { (life : FailedLife) (w : StartWork) (p : Owned) (result : Result StartTurn StartLacks) (v : StartWork) (q : Owned) → NextStart w p result v q → marks_left life q ≡ marks_left life p }
    ensures crash { (life : FailedLife) (m : Member) (p q : Owned) → IsCrash m p q → marks_left life q ≡ marks_left life p }
    ensures new { (life : FailedLife) (p : Owned) → IsNew p → marks_left life p ≡ 0 }
{}

/// In the steps of all actors, marks are of incarnations that their members were given. So the incarnation that a member
/// is given next has no mark yet.
pub fn marks_are_of_incarnations_that_were_given()
    ensures new { (p : Owned) → IsNew p → AreGiven p }
    ensures requests { (a b : ℕ) (before work : Work) (p q : Owned) (result : Result Turn StepError) → IsSteadyBeside a b before p → IsRequestOf before p → NextWork before p result work q → AreGiven p → AreGiven q }
    ensures peers { (skip : List (Member × Incarnation)) (w : PeerWork) (p : Owned) (result : Result PeerTurn NoMemory) (v : PeerWork) (q : Owned) → MayStepAt w.phase p → NextPeer skip w p result v q → AreGiven p → AreGiven q }
    ensures starts { (a b : ℕ) (w : StartWork) (p : Owned) (result : Result StartTurn StartLacks) (v : StartWork) (q : Owned) → IsSteady a b p → HasMember w.member p → NextStart w p result v q → AreGiven p → AreGiven q }
    ensures crash { (m : Member) (p q : Owned) → HasMember m p → IsCrash m p q → AreGiven p → AreGiven q }
    ensures next { (a b : ℕ) (m : Member) (p : Owned) → IsSteady a b p → HasMember m p → AreGiven p → marks_left (record { member = m; incarnation = next_incarnation m p.repo }) p ≡ 0 }
{}

/// An incarnation that is over and has no mark gets none. What else leaves structures leaves marks.
pub fn an_incarnation_without_marks_gets_none()
    ensures requests { (a b : ℕ) (life : FailedLife) (before work : Work) (p q : Owned) (result : Result Turn StepError) → IsSteadyBeside a b before p → IsRequestOf before p → NextWork before p result work q → IsOver life p → marks_left life p ≡ 0 → marks_left life q ≡ 0 }
    ensures peers { (life : FailedLife) (skip : List (Member × Incarnation)) (w : PeerWork) (p : Owned) (result : Result PeerTurn NoMemory) (v : PeerWork) (q : Owned) → MayStepAt w.phase p → NextPeer skip w p result v q → marks_left life p ≡ 0 → marks_left life q ≡ 0 }
    ensures starts { (life : FailedLife) (w : StartWork) (p : Owned) (result : Result StartTurn StartLacks) (v : StartWork) (q : Owned) → NextStart w p result v q → marks_left life p ≡ 0 → marks_left life q ≡ 0 }
    ensures crash { (life : FailedLife) (m : Member) (p q : Owned) → IsCrash m p q → marks_left life p ≡ 0 → marks_left life q ≡ 0 }
{}

/// The id of each entry is above 0 in a new group, and stays so in the steps of all actors: ids are given from 1 on.
pub fn entries_keep_ids_above_0()
    ensures new { (p : Owned) → IsNew p → AreAbove p }
    ensures requests { (a b : ℕ) (before work : Work) (p q : Owned) (result : Result Turn StepError) → IsSteadyBeside a b before p → IsRequestOf before p → NextWork before p result work q → AreAbove p → AreAbove q }
    ensures peers { (skip : List (Member × Incarnation)) (w : PeerWork) (p : Owned) (result : Result PeerTurn NoMemory) (v : PeerWork) (q : Owned) → MayStepAt w.phase p → NextPeer skip w p result v q → AreAbove p → AreAbove q }
    ensures starts { (w : StartWork) (p : Owned) (result : Result StartTurn StartLacks) (v : StartWork) (q : Owned) → NextStart w p result v q → AreAbove p → AreAbove q }
    ensures crash { (m : Member) (p q : Owned) → IsCrash m p q → AreAbove p → AreAbove q }
    ensures same { (p q : Owned) → q.structures ≡ p.structures → AreAbove p → AreAbove q }
{}

/// A structure that isn't active has no entry, in a new group and after the steps of all actors. So an incarnation without
/// a mark in any active structure has none at all.
pub fn what_isnt_active_stays_empty()
    ensures new { (p : Owned) → IsNew p → AreEmptyUnlessActive p }
    ensures requests { (a b : ℕ) (before work : Work) (p q : Owned) (result : Result Turn StepError) → IsSteadyBeside a b before p → IsRequestOf before p → NextWork before p result work q → AreEmptyUnlessActive p → AreEmptyUnlessActive q }
    ensures peers { (skip : List (Member × Incarnation)) (w : PeerWork) (p : Owned) (result : Result PeerTurn NoMemory) (v : PeerWork) (q : Owned) → MayStepAt w.phase p → NextPeer skip w p result v q → AreEmptyUnlessActive p → AreEmptyUnlessActive q }
    ensures starts { (w : StartWork) (p : Owned) (result : Result StartTurn StartLacks) (v : StartWork) (q : Owned) → NextStart w p result v q → AreEmptyUnlessActive p → AreEmptyUnlessActive q }
    ensures crash { (m : Member) (p q : Owned) → IsCrash m p q → AreEmptyUnlessActive p → AreEmptyUnlessActive q }
    ensures same { (p q : Owned) → q.structures ≡ p.structures → AreEmptyUnlessActive p → AreEmptyUnlessActive q }
    ensures clear { (life : FailedLife) (p : Owned) → AreEmptyUnlessActive p → length p.structures ≤ 4 → AreClear life p → marks_left life p ≡ 0 }
{}
