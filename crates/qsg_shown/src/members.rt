//! What members keep, by their numbers.

ghost use Rattle.std.specs.Prelude.{◌≡◌, ◌-◌};
ghost use Rattle.qsg_repo.specs.Keeping.{keep};
ghost use Rattle.qsg_manager.specs.Storage.{manager_in};
ghost use Rattle.qsg_logs.specs.Kept.{log_in};

use qsg_disk::Disk;
use qsg_logs::Logs;
use qsg_manager::Managers;
use qsg_num::{Incarnation, Member};
use qsg_repo::Repo;

/// The last incarnation of a member; 0 for one that the group doesn't have.
pub fn incarnation_of(managers: &Managers, member: Member) -> Incarnation
    ensures { result ≡ (manager_in member managers.now).incarnation }
{
    if member.index() < managers.len() {
        managers.manager(member).incarnation
    } else {
        Incarnation { number: 0 }
    }
}

/// The page of a member's log that is written next; 0 for one that the group doesn't have.
fn next_page<D: Disk>(logs: &Logs<D>, member: Member) -> u32
    ensures { result ≡ (log_in member logs.now).writer.next }
{
    if member.index() < logs.len() {
        logs.next_page(member).number
    } else {
        0
    }
}

/// The pages of a member's log, from the first that may still be needed up to the next one.
pub fn pages_of<D: Disk>(logs: &Logs<D>, repo: &Repo, member: Member) -> u32
    ensures { result ≡ (log_in member logs.now).writer.next - keep member repo.now }
{
    next_page(logs, member).saturating_sub(repo.keep(member).number)
}
