//! The steps of a peer's work are actions of the machine, and leave all else of the group.

ghost use Rattle.std.specs.Prelude.{◌≡◌, ◌≢◌, ◌≤◌, ◌<◌, ℕ, Bool, true, false, List, [], ◌∷◌, ◌++◌, length, map, Option, Some, Result, Ok};
ghost use Rattle.qsg_num.specs.declared.ids.EntryId.{EntryId};
ghost use Rattle.qsg_num.specs.declared.ids.Incarnation.{Incarnation};
ghost use Rattle.qsg_num.specs.declared.ids.UnitName.{UnitName};
ghost use Rattle.qsg_num.specs.declared.seats.Member.{Member};
ghost use Rattle.qsg_disk.specs.Byte.{Byte, synced};
ghost use Rattle.qsg_logpage.specs.Log.{Hand, LogState, advanced};
ghost use Rattle.qsg_logpage.specs.Reserved.{pages_for};
ghost use Rattle.qsg_logpage.specs.declared.step.Phase.TheVariants.{GateWritten};
ghost use Rattle.qsg_logread.specs.Fed.{Fed, is_committed};
ghost use Rattle.qsg_lists.specs.declared.parts.Connection.{Connection};
ghost use Rattle.qsg_lists.specs.declared.parts.Entry.{Entry};
ghost use Rattle.qsg_lists.specs.Entries.{revise};
ghost use Rattle.qsg_lists.specs.Marks.{names_member};
ghost use Rattle.qsg_repo.specs.Calls.{is_unresolved};
ghost use Rattle.qsg_repo.specs.Tables.{low_of};
ghost use Rattle.qsg_group.specs.Group.{Log, Run};
ghost use Rattle.qsg_group.specs.Observers.{runs_from};
ghost use Rattle.qsg_unitlog.specs.Tells.{Tells};
ghost use Rattle.qsg_logs.specs.Kept.{log_in};
ghost use Rattle.qsg_walk.specs.Following.{HasReadAll};
ghost use Rattle.qsg_group.specs.Changes.{Change};
ghost use Rattle.qsg_group.specs.Laws.{Laws};
ghost use Rattle.qsg_manager.specs.Groups.{Rest};
ghost use Rattle.qsg_manager.specs.Marked.{marks_of};
ghost use Rattle.qsg_parts.specs.Owned.{Owned};
ghost use Rattle.qsg_manager.specs.declared.structures.MarkedEntry.{MarkedEntry};
ghost use Rattle.qsg_peer.specs.declared.phases.FailedLife.{FailedLife};
ghost use Rattle.qsg_peer.specs.declared.phases.NoMemory.{NoMemory};
ghost use Rattle.qsg_peer.specs.declared.phases.PeerTurn.{PeerTurn};
ghost use Rattle.qsg_peer.specs.declared.phases.PeerTurn.TheVariants.{More, Resolved};
ghost use Rattle.qsg_peer.specs.declared.phases.Phase.TheVariants.{Find, At};
ghost use Rattle.qsg_peer.specs.declared.phases.Stage.{Stage};
ghost use Rattle.qsg_peer.specs.Works.{Work, IsSoundAt, IsSound};
ghost use Rattle.qsg_peer.specs.Needs.{HasStructure, MayStepAt};
ghost use Rattle.qsg_peer.specs.Steps.{NextPeer, first_walk, with_mark_off, with_resolved};
ghost use Rattle.qsg_peer.specs.Machine.{group_in, IsStep, is_of, IsOver, IsFollowed, Knows, AreClear, with_resolved_life};
ghost use Rattle.qsg_peer.specs.Sweeping.{AreOrdered, HasSweptAt, HasResolved};
ghost use Rattle.qsg_peer.specs.Leaving.{takes_off, LeavesRest, LeavesStructures};
ghost use Rattle.qsg_peer.specs.Pace.{marks_above, left_of_peer, whole_peer, whole_of, HasFoundLife, HasNoMoreMarks, HasNoMoreAt};

/// A step that isn't one of a settle leaves all structures; every step leaves members' storage, the data sets, the objects
/// and the history, and of the logs all but what reading does to a device.
pub fn a_step_leaves_the_rest()
    ensures rest { (skip : List (Member × Incarnation)) (w : Work) (p : Owned) (result : Result PeerTurn NoMemory) (v : Work) (q : Owned) → NextPeer skip w p result v q → LeavesRest p q }
    ensures structures { (skip : List (Member × Incarnation)) (w : Work) (p : Owned) (result : Result PeerTurn NoMemory) (v : Work) (q : Owned) → NextPeer skip w p result v q → takes_off w.phase ≡ false → LeavesStructures p q }
{}

/// The walk of the work follows the log of the incarnation's member from its low page on, over a device that tells its
/// bytes.
pub fn a_peers_walk_follows_the_log()
    ensures begun { (life : FailedLife) (p : Owned) → IsFollowed life (low_of life.member p.repo).number p (first_walk life p) }
    ensures goes_on { (skip : List (Member × Incarnation)) (life : FailedLife) (stage : Stage) (first : ℕ) (w : Work) (p : Owned) (result : Result PeerTurn NoMemory) (v : Work) (q : Owned) → w.phase ≡ At life stage → IsSoundAt life stage w.walk
        → NextPeer skip w p result v q → (log_in life.member p.logs).tells ≡ true → IsFollowed life first p w.walk → IsFollowed life first q v.walk }
{}

/// A reader that was fed all that was written of the log from the low page on knows of the units of the incarnation,
/// also while a further run is in hand.
pub fn a_reader_that_read_the_log_knows()
    ensures { (life : FailedLife) (logs : Member → Log) (log : LogState) (gone : List UnitName) (hand : Option Run) (bytes : List Byte) (reader : Fed) → HasReadAll (logs life.member).low log bytes reader
        → Tells (logs life.member).low log gone (runs_from (logs life.member).low (logs life.member).runs) hand bytes → Knows life reader logs }
{}

/// So does one that was fed the page in hand too, since its gate was written: the run in hand is of another incarnation.
pub fn a_reader_that_read_the_page_in_hand_knows()
    ensures { (life : FailedLife) (logs : Member → Log) (log : LogState) (hand : Hand) (gone : List UnitName) (run : Run) (bytes : List Byte) (reader : Fed) → log.hand ≡ Some hand → hand.phase ≡ GateWritten → 1 ≤ pages_for hand.unit log.reserved
        → HasReadAll (logs life.member).low (advanced log) (map synced bytes) reader → Tells (logs life.member).low log gone (runs_from (logs life.member).low (logs life.member).runs) (Some run) bytes → is_of life run.unit ≡ false → Knows life reader logs }
{}

/// A mark that comes off is the machine's settle by a peer, or leaves the group as it is, where a reader decides that
/// knows of the units of an incarnation that is over.
pub fn a_mark_that_comes_off_is_a_peers_settle()
    ensures { (rest : Rest) (life : FailedLife) (connection : Connection) (found : MarkedEntry) (reader : Fed) (p : Owned) → HasStructure connection.structure p → Laws (group_in rest p) → IsOver life p → Knows life reader rest.logs → is_of life found.unit ≡ true
        → IsStep (group_in rest p) (group_in rest (with_mark_off connection found (is_committed found.unit reader.commits) p)) }
{}

/// An incarnation without a mark in any active structure is resolved in the machine, and the repository tells so.
pub fn an_end_is_a_resolve()
    ensures change { (rest : Rest) (life : FailedLife) (p : Owned) → Laws (group_in rest p) → AreClear life p → Change (group_in rest p) (group_in (with_resolved_life life rest) (with_resolved life p)) }
    ensures mirrored { (rest : Rest) (life : FailedLife) (p : Owned) → ((m : Member) (i : ℕ) → rest.failed m i ≡ is_unresolved m (record { number = i }) p.repo)
        → (m : Member) (i : ℕ) → (with_resolved_life life rest).failed m i ≡ is_unresolved m (record { number = i }) (with_resolved life p).repo }
{}

/// Marks that are off stay off in the steps of the work: behind the last structure no mark of the incarnation stands in
/// an active one. So the step that answers Resolved comes only where none stands, as long as no other step sets one.
pub fn a_step_sweeps_the_structures()
    ensures sweeps { (skip : List (Member × Incarnation)) (w : Work) (p : Owned) (turn : PeerTurn) (v : Work) (q : Owned) → MayStepAt w.phase p → AreOrdered p → HasSweptAt w.phase p → NextPeer skip w p (Ok turn) v q → HasSweptAt v.phase q }
    ensures ends { (skip : List (Member × Incarnation)) (w : Work) (p : Owned) (m : Member) (i : Incarnation) (n : ℕ) (v : Work) (q : Owned) → HasSweptAt w.phase p → NextPeer skip w p (Ok (Resolved m i n)) v q → HasResolved m i n w p q }
{}

/// Once a work has found its incarnation, each step that goes on lowers how many are left. What is left then is less than
/// a whole work, which goes by the pages of the log and the marks of the incarnation.
pub fn a_step_lowers_what_is_left()
    ensures finds { (skip : List (Member × Incarnation)) (w : Work) (p : Owned) (v : Work) (q : Owned) → w.phase ≡ Find → NextPeer skip w p (Ok More) v q → HasFoundLife skip w p v q }
    ensures lowers { (skip : List (Member × Incarnation)) (w : Work) (p : Owned) (v : Work) (q : Owned) → w.phase ≢ Find → IsSound w.phase w.walk → MayStepAt w.phase p → NextPeer skip w p (Ok More) v q → left_of_peer v q < left_of_peer w p }
    ensures most { (life : FailedLife) (stage : Stage) (w : Work) (p : Owned) → w.phase ≡ At life stage → left_of_peer w p < whole_peer w.walk.left (marks_of life.member life.incarnation p.structures) }
{}

/// Where no more marks of its incarnation stand than before, no more steps are left to a work. That is so after a mark came
/// off, and of a list of entries after one was added or revised that has no mark of the incarnation then.
pub fn fewer_marks_leave_fewer_steps()
    ensures left { (w : Work) (p q : Owned) → HasNoMoreAt w.phase p q → ((m : Member) → (log_in m q.logs).writer.size ≡ (log_in m p.logs).writer.size) → left_of_peer w q ≤ left_of_peer w p }
    ensures off { (life : FailedLife) (connection : Connection) (found : MarkedEntry) (commits : Bool) (p : Owned) → HasStructure connection.structure p → HasNoMoreMarks life p (with_mark_off connection found commits p) }
    ensures added { (life : FailedLife) (id : EntryId) (entries : List Entry) (e : Entry) → names_member life.member life.incarnation e.mark ≡ false → marks_above life id (entries ++ e ∷ []) ≡ marks_above life id entries }
    ensures revised { (life : FailedLife) (id other : EntryId) (f : Entry → Option Entry) (entries : List Entry) → ((e x : Entry) → f e ≡ Some x → names_member life.member life.incarnation x.mark ≡ false) → marks_above life id (revise other f entries) ≤ marks_above life id entries }
{}
