//! Where an actor stands among others.

ghost use Rattle.std.specs.Prelude.{◌≡◌, ◌≤◌, length, position};
ghost use Rattle.qsg_agenda.specs.Courses.{same_actor};
ghost use Rattle.qsg_drive.specs.Runs.{place_of};

use qsg_num::Actor;

/// Whether two actors are the same.
fn same_actor(a: Actor, b: Actor) -> bool
    ensures { result ≡ same_actor a b }
{
    match (a, b) {
        (Actor::Task(m, t), Actor::Task(n, u)) => m.get() == n.get() && t.get() == u.get(),
        (Actor::Operator, Actor::Operator) => true,
        (Actor::Task(..), Actor::Operator) | (Actor::Operator, Actor::Task(..)) => false,
    }
}

/// The place of an actor, if it is one of these.
fn position_of(actors: &[Actor], who: Actor) -> Option<usize>
    ensures { result ≡ position (λ other. same_actor other who) actors.now }
{
    actors.iter().position(|other| same_actor(*other, who))
}

/// The place of an actor, or the number of all where it isn't one of these.
pub fn place_of(actors: &[Actor], who: Actor) -> usize
    ensures place { result ≡ place_of who actors.now }
    ensures within { result ≤ length actors.now }
{
    position_of(actors, who).unwrap_or(actors.len())
}
