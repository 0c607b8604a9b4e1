//! The sections of a script, in order of their actors.

ghost use Rattle.std.specs.Prelude.{◌≡◌, ◌<◌, ◌≤◌, [], ◌∷◌, ◌++◌, length, unwrap_or, IfSome, OnOk, OnErr};
ghost use Rattle.std.specs.List.{list_any, position};
ghost use Rattle.qsg_draft.specs.Lookups.{rank_of, is_section};
ghost use Rattle.qsg_draft.specs.Additions.{inserted, extended};
ghost use Rattle.qsg_draft.specs.Sections.{seen, is_kept, is_later};

use qsg_num::Actor;
use qsg_objects::Directive;
use std::alloc::{AllocError, Global};

/// The operator's place in the order of actors, behind all tasks.
const OPERATOR: u8 = 45;

/// An actor's place in the order of actors: by member, then by task; the operator is the last.
pub fn rank_of(actor: Actor) -> u8
    ensures value { result ≡ rank_of actor }
    ensures bound { result ≤ 45 }
{
    match actor {
        Actor::Task(member, task) => member.get() * 5 + task.get(),
        Actor::Operator => OPERATOR,
    }
}

/// The place of an actor's section among these; None exactly where it has none.
fn place_of(sections: &[(Actor, Vec<Directive>)], actor: Actor) -> Option<usize>
    ensures { result ≡ position (is_kept actor) sections.now }
{
    sections.iter().position(|s| rank_of(s.0) == rank_of(actor))
}

/// Whether one of these sections is the actor's.
fn is_any(sections: &[(Actor, Vec<Directive>)], actor: Actor) -> bool
    ensures { result ≡ list_any (is_kept actor) sections.now }
{
    sections.iter().any(|s| rank_of(s.0) == rank_of(actor))
}

/// Whether an actor has one of these sections.
pub fn has_section_of(sections: &[(Actor, Vec<Directive>)], actor: Actor) -> bool
    ensures { result ≡ list_any (is_section actor) (seen sections.now) }
{
    is_any(sections, actor)
}

/// The place of the first section of a later actor; None exactly where there is none.
fn first_later(sections: &[(Actor, Vec<Directive>)], actor: Actor) -> Option<usize>
    ensures value { result ≡ position (is_later actor) sections.now }
    ensures bound { IfSome result (λ at. at < length sections.now) }
{
    sections.iter().position(|s| rank_of(actor) < rank_of(s.0))
}

/// Where a section of an actor belongs among these: before the first of a later actor, or at the end.
fn place_for(sections: &[(Actor, Vec<Directive>)], actor: Actor) -> usize
    ensures value { result ≡ unwrap_or (position (is_later actor) sections.now) (length sections.now) }
    ensures bound { result ≤ length sections.now }
{
    first_later(sections, actor).unwrap_or(sections.len())
}

/// Adds an empty section of an actor, at its place in the order of actors.
#[tactic(auto, using(crate::proofs::Kept::inserted_at))]
pub fn insert_section(
    alloc: Global,
    sections: &mut Vec<(Actor, Vec<Directive>)>,
    actor: Actor,
) -> Result<(), AllocError>
    ensures ok { OnOk result (seen sections.new.items ≡ inserted actor (seen sections.old.items)) }
    ensures err { OnErr result (seen sections.new.items ≡ seen sections.old.items) }
{
    let at = place_for(sections.as_slice(), actor);
    sections
        .insert(at, (actor, Vec::new(alloc)))
        .map_err(|_| AllocError)
}

/// Adds a directive at the end.
fn add(directives: &mut Vec<Directive>, directive: Directive) -> Result<(), AllocError>
    ensures ok { OnOk result (directives.new.items ≡ directives.old.items ++ directive ∷ []) }
    ensures err { OnErr result (directives.new.items ≡ directives.old.items) }
{
    directives.push(directive).map_err(|_| AllocError)
}

/// Adds a directive at the end of an actor's section, if it has one.
pub fn add_to_section(
    sections: &mut Vec<(Actor, Vec<Directive>)>,
    actor: Actor,
    directive: Directive,
) -> Result<(), AllocError>
    ensures ok { OnOk result (seen sections.new.items ≡ extended actor directive (seen sections.old.items)) }
    ensures err { OnErr result (seen sections.new.items ≡ seen sections.old.items) }
{
    let Some(at) = place_of(sections.as_slice(), actor) else {
        return Ok(());
    };
    add(&mut sections[at].1, directive)
}
