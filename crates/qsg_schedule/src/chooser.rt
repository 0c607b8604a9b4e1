//! The two choosers and their picks.

ghost use Rattle.std.specs.Prelude.{◌≡◌, ◌<◌, length};
ghost use Rattle.qsg_schedule.specs.Course.{pick, rest, drawn};
ghost use Rattle.qsg_schedule.specs.Views.{course_of, IsInRange};

use crate::turns::{Schedule, actor_at};
use qsg_num::Actor;
use qsg_objects::{Actors, Turns};
use std::marker::Model;

/// Whose turn it is.
#[derive(Clone, Copy, Debug, PartialEq, Eq)]
pub enum Pick {
    /// This actor's, whatever its step answers.
    Exactly(Actor),
    /// This actor's, in turn; the run ends where as many of these in a row as there are actors didn't move.
    Round(Actor),
    /// The first actor's that moves, from this one on, round to the front.
    From(Actor),
}

/// What the draw multiplies the number by.
const FACTOR: u64 = 6_364_136_223_846_793_005;

/// What the draw adds.
const ADDEND: u64 = 1_442_695_040_888_963_407;

/// How a chooser goes on.
#[derive(Drop)]
enum Source {
    Schedule(Schedule),
    /// The number of the last draw.
    Seed(u64),
}

/// Gives whose turn it is, again and again. Takes no memory.
#[derive(Drop)]
pub struct Chooser {
    actors: Actors,
    source: Source,
}

impl Model for Chooser {
    ghost use Rattle.qsg_schedule.specs.Course.{Course};
    ghost use Rattle.qsg_schedule.specs.Views.{course_of, IsInRange};

    ghost Value = { Course };

    ghost view = { λ c. course_of c.actors c.source };

    ghost invariant = { λ c. IsInRange c.actors c.source };
}

impl Chooser {
    ghost use Rattle.qsg_schedule.specs.Course.{listed, seeded, pick, rest};

    /// The turns of a schedule's lines, each as often as its count says; then all actors in order, again and
    /// again.
    pub fn listed(list: Turns, actors: Actors) -> Chooser
        requires { 0 < length actors }
        ensures { result ≡ listed list actors 0 }
    {
        Chooser {
            actors,
            source: Source::Schedule(Schedule {
                turns: list.into_vec(),
                line: 0,
                round: 0,
            }),
        }
    }

    /// Turns that are drawn from a number.
    pub fn seeded(n: u64, actors: Actors) -> Chooser
        requires { 0 < length actors }
        ensures { result ≡ seeded n actors }
    {
        Chooser {
            actors,
            source: Source::Seed(n),
        }
    }

    /// Whose turn it is.
    pub fn next(&mut self) -> Pick
        ensures pick { result ≡ pick self.old }
        ensures rest { self.new ≡ rest self.old }
    {
        next_of(&mut self.source, self.actors.as_slice())
    }
}

/// The number of a draw, from that of the last one: arithmetic modulo 2^64.
fn drawn(last: u64) -> u64
    ensures { result ≡ drawn last }
{
    last.wrapping_mul(FACTOR).wrapping_add(ADDEND)
}

/// The next pick of a source.
fn next_of(source: &mut Source, actors: &[Actor]) -> Pick
    requires { IsInRange actors.now source.old }
    ensures pick { result ≡ pick (course_of actors.now source.old) }
    ensures rest { course_of actors.now source.new ≡ rest (course_of actors.now source.old) }
    ensures range { IsInRange actors.now source.new }
{
    match source {
        Source::Schedule(schedule) => schedule.next(actors),
        Source::Seed(seed) => {
            *seed = drawn(*seed);
            Pick::From(actor_at(actors, (*seed >> 33) as usize % actors.len()))
        }
    }
}

#[cfg(test)]
mod tests {
    use super::*;
    use qsg_num::{Member, TaskNo};
    use std::test::Fail;

    const SYSTEM: Actor = Actor::Task(Member::One, TaskNo::System);

    const TASK: Actor = Actor::Task(Member::One, TaskNo::One);

    #[test]
    fn picks(rt: HostRuntime) -> Result<(), Fail> {
        let lines = Turns::from_slice(
            rt.alloc(),
            &[(TASK, 2), (SYSTEM, 0), (Actor::Operator, 1), (TASK, 0)],
        )?;
        let actors = Actors::from_slice(rt.alloc(), &[SYSTEM, TASK, Actor::Operator])?;
        let mut chooser = Chooser::listed(lines, actors);
        for pick in [
            Pick::Exactly(TASK),
            Pick::Exactly(TASK),
            Pick::Exactly(Actor::Operator),
            Pick::Round(SYSTEM),
            Pick::Round(TASK),
            Pick::Round(Actor::Operator),
            Pick::Round(SYSTEM),
        ] {
            assert_eq!(rt; chooser.next(), pick);
        }
        let actors = Actors::from_slice(rt.alloc(), &[SYSTEM, TASK, Actor::Operator])?;
        let mut drawing = Chooser::seeded(0, actors);
        assert_eq!(rt; drawing.next(), Pick::From(Actor::Operator));
        Ok(())
    }
}
