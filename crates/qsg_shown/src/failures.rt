//! The incarnations that failed, as they are shown.

ghost use Rattle.std.specs.Prelude.{◌≡◌, ◌+◌, ◌*◌, ◌^◌, map, IfOk, OnOk};
ghost use Rattle.std.specs.List.Sorted.{IsPermutation, IsNonDecreasingBy};
ghost use Rattle.qsg_num.specs.Seats.{member_number};
ghost use Rattle.qsg_repo.specs.Lives.{is_failed_life};
ghost use Rattle.qsg_repo.specs.Calls.{is_unresolved};
ghost use Rattle.qsg_shown.specs.Showing.{failure_shown, failure_rank, AreFailures};

use qsg_num::{Incarnation, Member};
use qsg_repo::{Fate, Life, Repo};
use qsg_report::ShownFailure;
use qsg_tallies::Tally;
use std::alloc::{AllocError, Global};

/// Whether an incarnation failed and isn't resolved.
fn is_failed_life(life: &Life, member: Member, incarnation: Incarnation) -> bool
    ensures { result ≡ is_failed_life member incarnation life.now }
{
    life.member.get() == member.get()
        && life.incarnation.number == incarnation.number
        && matches!(life.fate, Fate::Failed)
}

/// Whether an incarnation of a member failed and isn't resolved.
fn is_unresolved(repo: &Repo, member: Member, incarnation: Incarnation) -> bool
    ensures { result ≡ is_unresolved member incarnation repo.now }
{
    repo.lives()
        .iter()
        .any(|life| is_failed_life(life, member, incarnation))
}

/// An incarnation that failed, by its tally.
fn show_failure(repo: &Repo, tally: &Tally) -> ShownFailure
    ensures { result ≡ failure_shown repo.now tally.now }
{
    ShownFailure {
        member: tally.member,
        incarnation: tally.incarnation,
        resolved: !is_unresolved(repo, tally.member, tally.incarnation),
        counts: tally.counts,
    }
}

/// A number that grows with the member of an incarnation, and then with its own.
fn rank_of(member: Member, incarnation: Incarnation) -> u64
    ensures { result ≡ member_number member * 2 ^ 32 + incarnation.number }
{
    u64::from(member.get()) * (1 << 32) + u64::from(incarnation.number)
}

/// Each tally as it is shown, in their order.
fn show_tallies(
    alloc: Global,
    repo: &Repo,
    tallies: &[Tally],
) -> Result<Vec<ShownFailure>, AllocError>
    ensures { IfOk result (λ shown. shown.items ≡ map (failure_shown repo.now) tallies.now) }
{
    let mut shown = Vec::new(alloc);
    for tally in tallies {
        shown.push(show_failure(repo, tally))?;
    }
    Ok(shown)
}

/// Puts failures in order of their members, and then of their numbers.
fn put_in_order(failures: &mut Vec<ShownFailure>) -> Result<(), AllocError>
    ensures same { OnOk result (IsPermutation failures.old.items failures.new.items) }
    ensures order { OnOk result (IsNonDecreasingBy failure_rank failures.new.items) }
{
    failures.sort_by_key(|failure| rank_of(failure.member, failure.incarnation))?;
    Ok(())
}

/// The incarnations that failed, each by its tally, in order of their members and then of their numbers.
pub fn show_failures(
    alloc: Global,
    repo: &Repo,
    tallies: &[Tally],
) -> Result<Vec<ShownFailure>, AllocError>
    ensures { IfOk result (λ shown. AreFailures repo.now tallies.now shown.items) }
{
    let mut failures = show_tallies(alloc, repo, tallies)?;
    put_in_order(&mut failures)?;
    Ok(failures)
}
