//! What is left of a schedule.

ghost use Rattle.std.specs.Prelude.{◌≡◌, ◌<◌, ◌≤◌, ℕ, List, drop, length, slice_index_or};
ghost use Rattle.qsg_num.specs.declared.ids.Actor.{Actor};
ghost use Rattle.qsg_num.specs.declared.ids.Actor.TheVariants.{Operator};
ghost use Rattle.qsg_schedule.specs.declared.chooser.Pick.TheVariants.{Exactly};
ghost use Rattle.qsg_schedule.specs.Course.{due, pick_of, rest_of, listed};

use crate::chooser::Pick;
use qsg_num::Actor;

/// The lines of a schedule, and where it stands.
#[derive(Drop)]
pub struct Schedule {
    /// The lines, each with what is left of its count.
    pub turns: Vec<(Actor, u32)>,
    /// The line whose turn is next; its place among the lines.
    pub line: usize,
    /// The actor whose round is next; its place among the actors.
    pub round: usize,
}

impl Schedule {
    ghost use Rattle.qsg_schedule.specs.Course.{pick, rest};
    ghost use Rattle.qsg_schedule.specs.Views.{schedule_course, IsScheduleInRange};

    /// The next pick.
    pub fn next(&mut self, actors: &[Actor]) -> Pick
        requires { IsScheduleInRange actors.now self.old }
        ensures pick { result ≡ pick (schedule_course actors.now self.old) }
        ensures rest { schedule_course actors.now self.new ≡ rest (schedule_course actors.now self.old) }
        ensures range { IsScheduleInRange actors.now self.new }
    {
        self.line = first_due(self.turns.as_slice(), self.line);
        if self.line < self.turns.len() {
            return Pick::Exactly(take_turn(&mut self.turns, self.line));
        }
        let actor = actor_at(actors, self.round);
        self.round = (self.round + 1) % actors.len();
        Pick::Round(actor)
    }
}

/// The place of the first line from `from` on whose count isn't used up, or the end.
pub fn first_due(turns: &[(Actor, u32)], from: usize) -> usize
    requires { from ≤ length turns.now }
    ensures due { due (drop from turns.now) ≡ drop result turns.now }
    ensures bound { result ≤ length turns.now }
    ensures left { result < length turns.now → (d : Actor × ℕ) → 0 < (slice_index_or turns.now result d).1 }
{
    let mut at = from;
    while at < turns.len() {
        if turns[at].1 > 0 {
            return at;
        }
        at += 1;
    }
    at
}

/// The actor of a number, from 0.
pub fn actor_at(actors: &[Actor], at: usize) -> Actor
    ensures { result ≡ slice_index_or actors.now at Operator }
{
    match actors.get(at) {
        Some(actor) => *actor,
        None => Actor::Operator,
    }
}

/// Takes one turn of a line that has one left.
fn take_turn(turns: &mut Vec<(Actor, u32)>, line: usize) -> Actor
    requires place { line < length turns.old.items }
    requires left { (d : Actor × ℕ) → 0 < (slice_index_or turns.old.items line d).1 }
    ensures pick { (actors : List Actor) → (round : ℕ) → pick_of (drop line turns.old.items) actors round ≡ Exactly result }
    ensures rest { (actors : List Actor) → (round : ℕ) → rest_of (drop line turns.old.items) actors round ≡ listed (drop line turns.new.items) actors round }
    ensures length { length turns.new.items ≡ length turns.old.items }
{
    let (actor, left) = turns[line];
    turns[line] = (actor, left - 1);
    actor
}
