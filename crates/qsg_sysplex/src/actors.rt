//! The actors of a plan, in their order.

ghost use Rattle.std.specs.Prelude.{◌≡◌, ◌≤◌, [], ◌∷◌, ◌++◌, take, IfOk, OnOk};
ghost use Rattle.std.specs.List.{filter, flat_map};
ghost use Rattle.qsg_sysplex.specs.Actors.{is_section, has_section, actors_of_member, actors_of};
ghost use Rattle.qsg_sysplex.specs.Starting.{all_members};

use crate::starting::ALL_MEMBERS;
use qsg_num::{Actor, Member, TaskNo};
use qsg_objects::{Actors, Directives, Plan};
use std::alloc::{AllocError, Global};

fn is_section(actor: Actor, work: &(Actor, Directives)) -> bool
    ensures { result ≡ is_section actor work.now }
{
    match (work.0, actor) {
        (Actor::Task(m, t), Actor::Task(n, u)) => m.get() == n.get() && t.get() == u.get(),
        (Actor::Operator, Actor::Operator) => true,
        (Actor::Task(..), Actor::Operator) | (Actor::Operator, Actor::Task(..)) => false,
    }
}

fn has_section(works: &[(Actor, Directives)], actor: Actor) -> bool
    ensures { result ≡ has_section works.now actor }
{
    works.iter().any(|work| is_section(actor, work))
}

/// Adds an actor, if it has a section.
fn push_section(
    actors: &mut Vec<Actor>,
    works: &[(Actor, Directives)],
    actor: Actor,
) -> Result<(), AllocError>
    ensures { OnOk result (actors.new.items ≡ actors.old.items ++ filter (has_section works.now) (actor ∷ [])) }
{
    if has_section(works, actor) {
        actors.push(actor)?;
    }
    Ok(())
}

/// Adds the actors of a member: its system task, and its tasks by number that have a section.
fn push_member(
    actors: &mut Vec<Actor>,
    works: &[(Actor, Directives)],
    member: Member,
) -> Result<(), AllocError>
    ensures { OnOk result (actors.new.items ≡ actors.old.items ++ actors_of_member works.now member) }
{
    actors.push(Actor::Task(member, TaskNo::System))?;
    push_section(actors, works, Actor::Task(member, TaskNo::One))?;
    push_section(actors, works, Actor::Task(member, TaskNo::Two))?;
    push_section(actors, works, Actor::Task(member, TaskNo::Three))?;
    push_section(actors, works, Actor::Task(member, TaskNo::Four))?;
    Ok(())
}

/// Adds those of each of the first so many members.
fn push_members(
    actors: &mut Vec<Actor>,
    works: &[(Actor, Directives)],
    members: usize,
) -> Result<(), AllocError>
    requires none { actors.old.items ≡ [] }
    requires few { members ≤ 8 }
    ensures { OnOk result (actors.new.items ≡ flat_map (actors_of_member works.now) (take members all_members)) }
{
    for index in 0..members {
        push_member(actors, works, ALL_MEMBERS[index])?;
    }
    Ok(())
}

/// The actors of a plan in their order: of each member its system task and its tasks by number that have a section; and
/// then the operator.
pub fn actors_of(alloc: Global, plan: &Plan) -> Result<Actors, AllocError>
    ensures { IfOk result (λ actors. actors ≡ actors_of plan.now) }
{
    let mut actors = Vec::new(alloc);
    let members = plan.members.len().min(ALL_MEMBERS.len());
    push_members(&mut actors, plan.works.as_slice(), members)?;
    actors.push(Actor::Operator)?;
    Ok(Actors::from_vec(actors))
}
