//! The incarnations that members were given.

ghost use Rattle.std.specs.Prelude.{◌≡◌, ℕ, ◌+◌, ◌≤◌, ◌^◌, ◌<◌, length, map, count_by, Option};
ghost use Rattle.std.specs.List.{list_any};
ghost use Rattle.qsg_repo.specs.Lives.{is_member, is_life, is_failed, is_failed_of, is_failed_life, failed_life, resolved_life, stopped_life, is_name, is_open, first_open, is_before, lesser, name_of};

use qsg_num::{Incarnation, Member};

/// What became of an incarnation.
#[derive(Clone, Copy, Debug, PartialEq, Eq)]
pub enum Fate {
    /// It lives.
    Up,
    /// It ended with STOP.
    Stopped,
    /// It crashed, and marks of its units may stand.
    Failed,
    /// It crashed, and no mark of its units stands.
    Resolved,
}

/// An incarnation of a member.
#[derive(Clone, Copy, Debug, PartialEq, Eq)]
pub struct Life {
    pub member: Member,
    pub incarnation: Incarnation,
    pub fate: Fate,
}

impl Life {
    fn is_life(self, member: Member, incarnation: Incarnation) -> bool
        ensures { result ≡ is_life member incarnation self }
    {
        self.member == member && self.incarnation == incarnation
    }

    fn is_failed(self) -> bool
        ensures { result ≡ is_failed self.fate }
    {
        matches!(self.fate, Fate::Failed)
    }

    fn with_fate(self, fate: Fate) -> Life
        ensures { result ≡ record self { fate = fate } }
    {
        Life {
            member: self.member,
            incarnation: self.incarnation,
            fate,
        }
    }

    /// As it is once that incarnation crashed.
    fn failed(self, member: Member, incarnation: Incarnation) -> Life
        ensures { result ≡ failed_life member incarnation self }
    {
        if self.is_life(member, incarnation) && matches!(self.fate, Fate::Up | Fate::Stopped) {
            self.with_fate(Fate::Failed)
        } else {
            self
        }
    }

    /// As it is once that incarnation is resolved.
    fn resolved(self, member: Member, incarnation: Incarnation) -> Life
        ensures { result ≡ resolved_life member incarnation self }
    {
        if self.is_life(member, incarnation) && self.is_failed() {
            self.with_fate(Fate::Resolved)
        } else {
            self
        }
    }

    /// As it is once that member stopped.
    fn stopped(self, member: Member) -> Life
        ensures { result ≡ stopped_life member self }
    {
        if self.member == member && matches!(self.fate, Fate::Up) {
            self.with_fate(Fate::Stopped)
        } else {
            self
        }
    }

    fn is_among(self, names: &[(Member, Incarnation)]) -> bool
        ensures { result ≡ list_any (is_name self) names.now }
    {
        names
            .iter()
            .any(|name| name.0 == self.member && name.1 == self.incarnation)
    }

    fn is_open(self, skip: &[(Member, Incarnation)]) -> bool
        ensures { result ≡ is_open skip.now self }
    {
        self.is_failed() && !self.is_among(skip)
    }
}

/// How many incarnations a member was given.
pub fn count_of(lives: &[Life], member: Member) -> usize
    ensures value { result ≡ count_by (is_member member) lives.now }
    ensures bound { result ≤ length lives.now }
{
    lives.iter().filter(|life| life.member == member).count()
}

/// Whether an incarnation of the member is failed and unresolved.
pub fn has_failed(lives: &[Life], member: Member) -> bool
    ensures { result ≡ list_any (is_failed_of member) lives.now }
{
    lives
        .iter()
        .any(|life| life.member == member && life.is_failed())
}

/// Whether this incarnation is failed and unresolved.
pub fn is_failed_life(lives: &[Life], member: Member, incarnation: Incarnation) -> bool
    ensures { result ≡ list_any (is_failed_life member incarnation) lives.now }
{
    lives.iter().any(|life| life.is_life(member, incarnation) && life.is_failed())
}

/// An incarnation crashes.
pub fn fail(lives: &mut [Life], member: Member, incarnation: Incarnation)
    ensures { lives.new ≡ map (failed_life member incarnation) lives.old }
{
    for life in lives.iter_mut() {
        *life = life.failed(member, incarnation);
    }
}

/// An incarnation is resolved.
pub fn resolve(lives: &mut [Life], member: Member, incarnation: Incarnation)
    ensures { lives.new ≡ map (resolved_life member incarnation) lives.old }
{
    for life in lives.iter_mut() {
        *life = life.resolved(member, incarnation);
    }
}

/// A member stops.
pub fn stop(lives: &mut [Life], member: Member)
    ensures { lives.new ≡ map (stopped_life member) lives.old }
{
    for life in lives.iter_mut() {
        *life = life.stopped(member);
    }
}

/// The lesser of two names, by member, then by incarnation; the first may be absent.
fn lesser(
    least: Option<(Member, Incarnation)>,
    name: (Member, Incarnation),
) -> Option<(Member, Incarnation)>
    ensures { result ≡ lesser least name }
{
    match least {
        None => Some(name),
        Some(best) => { if name < best { Some(name) } else { Some(best) } }
    }
}

/// The least failed and unresolved incarnation that isn't to be skipped.
pub fn first_open(lives: &[Life], skip: &[(Member, Incarnation)]) -> Option<(Member, Incarnation)>
    ensures { result ≡ first_open skip.now lives.now }
{
    let mut least = None;
    for life in lives {
        if life.is_open(skip) {
            least = lesser(least, (life.member, life.incarnation));
        }
    }
    least
}
