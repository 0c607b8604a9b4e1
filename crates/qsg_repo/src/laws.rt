//! What holds of all repositories.

ghost use Rattle.std.specs.Prelude.{◌≡◌, ℕ, ◌≤◌, true, Bool, Some};
ghost use Rattle.qsg_num.specs.declared.seats.Member.{Member};
ghost use Rattle.qsg_num.specs.declared.seats.StructNo.{StructNo};
ghost use Rattle.qsg_num.specs.declared.seats.TaskNo.{TaskNo};
ghost use Rattle.qsg_num.specs.declared.ids.PageNo.{PageNo};
ghost use Rattle.qsg_num.specs.declared.ids.Incarnation.{Incarnation};
ghost use Rattle.qsg_num.specs.declared.ids.UnitName.{UnitName};
ghost use Rattle.qsg_repo.specs.declared.notes.Note.{Note};
ghost use Rattle.qsg_repo.specs.declared.statuses.Smds.{Smds};
ghost use Rattle.qsg_repo.specs.Tables.{Repository, hold_at, recovers, with_smds};
ghost use Rattle.qsg_repo.specs.Calls.{published, noted, purged, crashed, resolved, started, stopped, smds_used, smds_dirty, smds_done, smds_stopped, held, note_held, released};
ghost use Rattle.qsg_repo.specs.Keeping.{keep, IsBeforeAllNeeded};

/// The page that a repository keeps of a member's log is the last one that is before all that may still be needed.
pub fn keep_is_the_least_page()
    ensures before { (m : Member) (repo : Repository) → IsBeforeAllNeeded m (keep m repo) repo }
    ensures last { (m : Member) (page : ℕ) (repo : Repository) → IsBeforeAllNeeded m page repo → page ≤ keep m repo }
{}

/// No call lets the page that is kept of a member's log fall, so what was written over is never needed again.
pub fn keep_never_falls()
    ensures publish_low { (repo : Repository) (m k : Member) (page : PageNo) → keep m repo ≤ keep m (published k page repo) }
    ensures put_note { (repo : Repository) (m k : Member) (t : TaskNo) (s : StructNo) (note : Note) → hold_at k t repo ≡ Some note.low → keep m repo ≤ keep m (noted k t s note repo) }
    ensures purge_note { (repo : Repository) (m : Member) (s : StructNo) (epoch : ℕ) (backup : UnitName) → keep m repo ≤ keep m (purged s epoch backup repo) }
    ensures crashed { (repo : Repository) (m k : Member) (i : Incarnation) → keep m repo ≤ keep m (crashed k i repo) }
    ensures resolve { (repo : Repository) (m k : Member) (i : Incarnation) → keep m repo ≤ keep m (resolved k i repo) }
    ensures started { (repo : Repository) (m k : Member) → keep m repo ≤ keep m (started k repo) }
    ensures stopped { (repo : Repository) (m k : Member) → keep m repo ≤ keep m (stopped k repo) }
    ensures set_smds { (repo : Repository) (m k : Member) (s : StructNo) (to : Smds) → keep m repo ≤ keep m (with_smds k s to repo) }
    ensures smds_use { (repo : Repository) (m k : Member) (s : StructNo) → keep m repo ≤ keep m (smds_used k s repo) }
    ensures smds_dirty { (repo : Repository) (m : Member) (s : StructNo) → keep m repo ≤ keep m (smds_dirty s repo) }
    ensures smds_done { (repo : Repository) (m k : Member) (t : TaskNo) (s : StructNo) (recovered : Bool) → keep m repo ≤ keep m (smds_done k t s recovered repo) }
    ensures smds_stopped { (repo : Repository) (m k : Member) (s : StructNo) (used : ℕ) → keep m repo ≤ keep m (smds_stopped k s used repo) }
    ensures hold { (repo : Repository) (m k : Member) (t : TaskNo) → keep m repo ≤ keep m (held k t repo) }
    ensures note_hold { (repo : Repository) (m k : Member) (t : TaskNo) (s : StructNo) → recovers s repo ≡ true → keep m repo ≤ keep m (note_held k t s repo) }
    ensures release { (repo : Repository) (m k : Member) (t : TaskNo) → keep m repo ≤ keep m (released k t repo) }
{}
