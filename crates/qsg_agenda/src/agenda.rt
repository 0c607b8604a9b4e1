//! The directives of all actors, with their answers.

ghost use Rattle.std.specs.Prelude.{◌≡◌, ◌<◌, ◌≤◌, ◌+◌, [], ◌∷◌, ◌++◌, List, length, map, position, drop, take, slice_get, option_copied, IfOk, OnOk, IsSome, IfSome, IfNone, Some};
ghost use Rattle.std.specs.List.{AllByRecursion, list_all, position_or_len};
ghost use Rattle.std.specs.Prelude.{find};
ghost use Rattle.qsg_objects.specs.declared.directives.Directive.{Directive};
ghost use Rattle.qsg_agenda.specs.Courses.{same_actor, verb_of, begun, course_of, next_in, next_of, is_through, with_answer, answered};
ghost use Rattle.qsg_agenda.specs.Parts.{course_in, IsKept};

use crate::courses::{Part, same_actor, verb_of};
use qsg_num::Actor;
use qsg_objects::{Directive, Directives, Works};
use qsg_requests::{Answer, Reply, Transcript};
use std::alloc::{AllocError, Global};
use std::marker::Model;

/// What the actors of a group are to do, and what they answered: of each actor its directives, in order, and its
/// answers, one for each of its first directives. It has room for all answers.
#[derive(Drop)]
pub struct Agenda {
    parts: Vec<Part>,
}

impl Model for Agenda {
    ghost use Rattle.std.specs.Prelude.{List, map};
    ghost use Rattle.std.specs.List.{AllByRecursion};
    ghost use Rattle.qsg_agenda.specs.Courses.{Course};
    ghost use Rattle.qsg_agenda.specs.Parts.{course_in, IsKept};

    ghost Value = { List Course };

    ghost view = { λ a. map course_in a.parts.items };

    ghost invariant = { λ a. AllByRecursion IsKept a.parts.items };
}

/// An actor that has answered nothing yet, with room for its answers.
fn begin(alloc: Global, actor: Actor, directives: Directives) -> Result<Part, AllocError>
    ensures actor { IfOk result (λ p. p.actor ≡ actor) }
    ensures directives { IfOk result (λ p. p.directives ≡ directives) }
    ensures answers { IfOk result (λ p. p.transcript.answers ≡ []) }
    ensures kept { IfOk result IsKept }
{
    let mut transcript = Transcript::new(alloc);
    transcript.reserve(directives.len())?;
    Ok(Part {
        actor,
        directives,
        transcript,
    })
}

/// All of them.
fn begin_all(alloc: Global, works: Vec<(Actor, Directives)>) -> Result<Vec<Part>, AllocError>
    ensures begun { IfOk result (λ parts. map course_in parts.items ≡ map begun works.items) }
    ensures kept { IfOk result (λ parts. AllByRecursion IsKept parts.items) }
{
    let mut parts = Vec::new(alloc);
    for (actor, directives) in works {
        parts.push(begin(alloc, actor, directives)?)?;
    }
    Ok(parts)
}

/// The part of an actor.
fn part_of(parts: &[Part], actor: Actor) -> Option<&Part>
    ensures { option_copied result ≡ find (λ p. same_actor p.actor actor) parts.now }
{
    parts.iter().find(|p| same_actor(p.actor, actor))
}

/// Its place, if it has one.
fn position_of(parts: &[Part], actor: Actor) -> Option<usize>
    ensures { result ≡ position (λ p. same_actor p.actor actor) parts.now }
{
    parts.iter().position(|p| same_actor(p.actor, actor))
}

/// Its place, or the number of parts where it has none.
fn place_of(parts: &[Part], actor: Actor) -> usize
    ensures { result ≡ position_or_len (λ p. same_actor p.actor actor) parts.now }
{
    position_of(parts, actor).unwrap_or(parts.len())
}

/// Whether every directive of an actor is answered.
fn is_through(part: &Part) -> bool
    ensures { result ≡ is_through (course_in part.now) }
{
    part.transcript.len() == part.directives.len()
}

/// The first directive of an actor that isn't answered.
fn next_in(part: &Part) -> Option<&Directive>
    ensures value { option_copied result ≡ next_in (course_in part.now) }
    ensures within { IfSome result (λ _. length part.now.transcript.answers < length part.now.directives) }
{
    part.directives.as_slice().get(part.transcript.len())
}

/// Adds the answer to the next directive of an actor.
fn answer_next(part: &mut Part, reply: Reply, at: u64)
    requires next { IsSome (next_in (course_in part.old)) }
    requires kept { IsKept part.old }
    ensures answered { (d : Directive) → next_in (course_in part.old) ≡ Some d → course_in part.new ≡ with_answer (record { verb = verb_of d; reply = reply; at = at }) (course_in part.old) }
    ensures kept { IsKept part.new }
{
    if let Some(directive) = next_in(part) {
        let verb = verb_of(directive);
        part.transcript.push(Answer { verb, reply, at });
    }
}

/// Whether every directive of each is answered.
fn are_through(parts: &[Part]) -> bool
    ensures { result ≡ list_all (λ p. is_through (course_in p)) parts.now }
{
    parts.iter().all(is_through)
}

impl Agenda {
    ghost use Rattle.qsg_agenda.specs.Courses.{answers_of, IsAnswered};

    /// The directives of a plan, with room for all answers.
    pub fn new(alloc: Global, works: Works) -> Result<Agenda, AllocError>
        ensures { IfOk result (λ a. a ≡ map begun works) }
    {
        Ok(Agenda {
            parts: begin_all(alloc, works.into_vec())?,
        })
    }

    /// What every agenda keeps: each answer is of the directive at its place.
    pub fn kept(&self)
        ensures { AllByRecursion IsAnswered self.now }
    {
        let _parts = &self.parts;
    }

    /// The first directive of an actor that isn't answered; None exactly where there is none.
    pub fn next(&self, actor: Actor) -> Option<&Directive>
        ensures { option_copied result ≡ next_of actor self.now }
    {
        next_in(part_of(&self.parts, actor)?)
    }

    /// How many answers an actor has given; none where it isn't on the agenda.
    pub fn answers(&self, actor: Actor) -> usize
        ensures { result ≡ length (answers_of actor self.now) }
    {
        match part_of(&self.parts, actor) {
            Some(part) => part.transcript.len(),
            None => 0,
        }
    }

    /// The answers of an actor; none where it isn't on the agenda.
    pub fn transcript(&self, actor: Actor) -> &[Answer]
        ensures { result.now ≡ answers_of actor self.now }
    {
        match part_of(&self.parts, actor) {
            Some(part) => part.transcript.as_slice(),
            None => &[],
        }
    }

    /// Whether every directive is answered.
    pub fn is_through(&self) -> bool
        ensures { result ≡ list_all is_through self.now }
    {
        are_through(&self.parts)
    }

    /// Adds an actor's answer to its next directive, given when the history had so many items. Takes no memory.
    pub fn answer(&mut self, actor: Actor, reply: Reply, at: u64)
        requires { IsSome (next_of actor self.old) }
        ensures { (d : Directive) → next_of actor self.old ≡ Some d → self.new ≡ answered actor (record { verb = verb_of d; reply = reply; at = at }) self.old }
    {
        answer_in(&mut self.parts, actor, reply, at);
    }
}

/// Adds an actor's answer to its next directive.
fn answer_in(parts: &mut Vec<Part>, actor: Actor, reply: Reply, at: u64)
    requires next { IsSome (next_of actor (map course_in parts.old.items)) }
    requires kept { AllByRecursion IsKept parts.old.items }
    ensures answered { (d : Directive) → next_of actor (map course_in parts.old.items) ≡ Some d → map course_in parts.new.items ≡ answered actor (record { verb = verb_of d; reply = reply; at = at }) (map course_in parts.old.items) }
    ensures kept { AllByRecursion IsKept parts.new.items }
{
    let place = place_of(parts, actor);
    answer_next(&mut parts[place], reply, at);
}
