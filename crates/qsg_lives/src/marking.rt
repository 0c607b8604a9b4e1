//! An incarnation that is over stays so, and its marks only come off, by the work of peers.

ghost use Rattle.std.specs.Prelude.{ℕ, ◌+◌, ◌^◌, ◌≡◌, ◌<◌, Bool, true, false, Some, Ok, Option, List, Result};
ghost use Rattle.qsg_num.specs.declared.seats.Member.{Member};
ghost use Rattle.qsg_num.specs.declared.seats.TaskNo.{TaskNo};
ghost use Rattle.qsg_num.specs.declared.ids.Incarnation.{Incarnation};
ghost use Rattle.qsg_num.specs.declared.ids.UnitName.{UnitName};
ghost use Rattle.qsg_num.specs.declared.words.Delivery.{Delivery};
ghost use Rattle.qsg_msg.specs.declared.message.Message.{Message};
ghost use Rattle.qsg_lists.specs.declared.parts.Connection.{Connection};
ghost use Rattle.qsg_lists.specs.declared.parts.Entry.{Entry};
ghost use Rattle.qsg_lists.specs.declared.parts.Head.{Head};
ghost use Rattle.qsg_lists.specs.declared.parts.Place.{Place};
ghost use Rattle.qsg_lists.specs.declared.parts.Selector.{Selector};
ghost use Rattle.qsg_group.specs.declared.tasks.Claim.{Claim};
ghost use Rattle.qsg_manager.specs.declared.structures.MarkedEntry.{MarkedEntry};
ghost use Rattle.qsg_manager.specs.Getting.{found_in};
ghost use Rattle.qsg_manager.specs.Storage.{manager_in, task_at};
ghost use Rattle.qsg_parts.specs.Owned.{Owned, HasMember};
ghost use Rattle.qsg_requests.specs.declared.replies.Turn.{Turn};
ghost use Rattle.qsg_commit.specs.declared.phases.StepError.{StepError};
ghost use Rattle.qsg_works.specs.declared.work.Work.{Work};
ghost use Rattle.qsg_works.specs.Steps.{NextWork};
ghost use Rattle.qsg_steady.specs.Steady.{IsSteady};
ghost use Rattle.qsg_steady.specs.Actions.{put, got, settled};
ghost use Rattle.qsg_fit.specs.Requests.{IsRequestOf, IsSteadyBeside};
ghost use Rattle.qsg_crash.specs.Crashes.{IsCrash};
ghost use Rattle.qsg_start.specs.declared.phases.NoMemory.{NoMemory as StartLacks};
ghost use Rattle.qsg_start.specs.declared.phases.StartTurn.{StartTurn};
ghost use Rattle.qsg_start.specs.Works.{Work as StartWork};
ghost use Rattle.qsg_start.specs.Steps.{NextStart};
ghost use Rattle.qsg_peer.specs.declared.phases.FailedLife.{FailedLife};
ghost use Rattle.qsg_peer.specs.declared.phases.NoMemory.{NoMemory};
ghost use Rattle.qsg_peer.specs.declared.phases.PeerTurn.{PeerTurn};
ghost use Rattle.qsg_peer.specs.declared.phases.Phase.TheVariants.{At};
ghost use Rattle.qsg_peer.specs.declared.phases.Stage.{Stage};
ghost use Rattle.qsg_peer.specs.Works.{Work as PeerWork, IsSoundAt, IsSound};
ghost use Rattle.qsg_peer.specs.Needs.{HasStructure, MayStepAt};
ghost use Rattle.qsg_peer.specs.Steps.{NextPeer, mark_answer, with_mark_off};
ghost use Rattle.qsg_peer.specs.Machine.{is_of, IsOver};
ghost use Rattle.qsg_peer.specs.Sweeping.{AreOrdered};
ghost use Rattle.qsg_peer.specs.Pace.{HasNoMoreMarks};
ghost use Rattle.qsg_lives.specs.Marks.{marks_left, StaysSwept, LeavesMarks, came_off_by, came_off};

/// An incarnation that is over stays so in the steps of all actors; a crash ends the one that was up.
pub fn an_incarnation_that_is_over_stays_over()
    ensures requests { (a b : ℕ) (life : FailedLife) (before work : Work) (p q : Owned) (result : Result Turn StepError) → IsSteadyBeside a b before p → IsRequestOf before p → NextWork before p result work q → IsOver life p → IsOver life q }
    ensures peers { (life : FailedLife) (skip : List (Member × Incarnation)) (w : PeerWork) (p : Owned) (result : Result PeerTurn NoMemory) (v : PeerWork) (q : Owned) → NextPeer skip w p result v q → IsOver life p → IsOver life q }
    ensures starts { (a b : ℕ) (life : FailedLife) (w : StartWork) (p : Owned) (result : Result StartTurn StartLacks) (v : StartWork) (q : Owned) → IsSteady a b p → HasMember w.member p → NextStart w p result v q → IsOver life p → IsOver life q }
    ensures crash { (life : FailedLife) (m : Member) (p q : Owned) → HasMember m p → IsCrash m p q → IsOver life p → IsOver life q }
    ensures ends { (m : Member) (p q : Owned) → HasMember m p → IsCrash m p q → IsOver (record { member = m; incarnation = (manager_in m p.managers).incarnation }) q }
{}

/// A unit that a task holds is of the incarnation that is up.
pub fn a_unit_in_hand_is_of_no_incarnation_that_is_over()
    ensures { (a b : ℕ) (p : Owned) (m : Member) (t : TaskNo) (u : UnitName) (life : FailedLife) → IsSteady a b p → (task_at m t p.managers).unit ≡ Some u → IsOver life p → is_of life u ≡ false }
{}

/// What a unit of another incarnation puts, gets and settles is no matter of the marks of an incarnation.
pub fn a_unit_leaves_the_marks_of_others()
    ensures put { (life : FailedLife) (p : Owned) (t : TaskNo) (u : UnitName) (c : Connection) (head : Head) (place : Place) (message : Message) (logged : Option ℕ) → is_of life u ≡ false → HasStructure c.structure p → LeavesMarks life p (put u t c head place message logged p) }
    ensures got { (life : FailedLife) (p : Owned) (t : TaskNo) (u : UnitName) (c : Connection) (queue : List ℕ) (order : Delivery) (select : Selector) (e : Entry) (logged : Option ℕ) → is_of life u ≡ false → AreOrdered p → HasStructure c.structure p
        → found_in c queue order select p.structures ≡ Some e → LeavesMarks life p (got u t c e logged p) }
    ensures settled { (life : FailedLife) (p : Owned) (t : TaskNo) (u : UnitName) (c : Claim) → is_of life u ≡ false → AreOrdered p → HasStructure c.connection.structure p → LeavesMarks life p (settled u t c p) }
{}

/// No step of a request sets or takes off a mark of an incarnation that is over, however the step ends.
pub fn a_request_leaves_the_marks_of_the_dead()
    ensures { (a b : ℕ) (life : FailedLife) (before work : Work) (p q : Owned) (result : Result Turn StepError) → IsSteadyBeside a b before p → IsRequestOf before p → AreOrdered p → IsOver life p → NextWork before p result work q → LeavesMarks life p q }
{}

/// What leaves the structures leaves all marks.
pub fn the_same_structures_have_the_same_marks()
    ensures { (life : FailedLife) (p q : Owned) → q.structures ≡ p.structures → LeavesMarks life p q }
{}

/// A mark that comes off is one fewer of its unit's incarnation, and none fewer of any other; marks that are off stay off.
pub fn a_mark_that_comes_off_leaves_the_others()
    ensures marks { (life : FailedLife) (connection : Connection) (found : MarkedEntry) (commits : Bool) (p : Owned) → HasStructure connection.structure p
        → marks_left life p ≡ marks_left life (with_mark_off connection found commits p) + came_off_by life found (mark_answer connection found p) }
    ensures swept { (life : FailedLife) (connection : Connection) (found : MarkedEntry) (commits : Bool) (p : Owned) → AreOrdered p → HasStructure connection.structure p → StaysSwept life p (with_mark_off connection found commits p) }
{}

/// A step of a peer's work takes the marks off that come off at its phase, which the work counts, and leaves those of all
/// other incarnations; marks that are off stay off, and above no id are more of any incarnation than before.
pub fn a_peers_step_takes_its_mark_off()
    ensures marks { (life : FailedLife) (skip : List (Member × Incarnation)) (w : PeerWork) (p : Owned) (result : Result PeerTurn NoMemory) (v : PeerWork) (q : Owned) → IsSound w.phase w.walk → MayStepAt w.phase p → NextPeer skip w p result v q → marks_left life p ≡ marks_left life q + came_off life w.phase p }
    ensures counts { (life : FailedLife) (stage : Stage) (skip : List (Member × Incarnation)) (w : PeerWork) (p : Owned) (turn : PeerTurn) (v : PeerWork) (q : Owned) → w.phase ≡ At life stage → IsSoundAt life stage w.walk → w.settled + came_off life w.phase p < 2 ^ 32
        → NextPeer skip w p (Ok turn) v q → v.settled ≡ w.settled + came_off life w.phase p }
    ensures swept { (life : FailedLife) (skip : List (Member × Incarnation)) (w : PeerWork) (p : Owned) (result : Result PeerTurn NoMemory) (v : PeerWork) (q : Owned) → IsSound w.phase w.walk → AreOrdered p → MayStepAt w.phase p → NextPeer skip w p result v q → StaysSwept life p q }
    ensures above { (life : FailedLife) (skip : List (Member × Incarnation)) (w : PeerWork) (p : Owned) (result : Result PeerTurn NoMemory) (v : PeerWork) (q : Owned) → MayStepAt w.phase p → NextPeer skip w p result v q → HasNoMoreMarks life p q }
{}
