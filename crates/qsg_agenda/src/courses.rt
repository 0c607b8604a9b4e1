//! The directives of one actor, with its answers.

ghost use Rattle.std.specs.Prelude.{◌≡◌, ◌+◌, ◌-◌, ◌<◌, ◌≤◌, length, slice_get, option_copied, IfOk, Some};
ghost use Rattle.qsg_agenda.specs.Courses.{verb_of, same_actor};

use qsg_num::{Actor, EntryId};
use qsg_objects::{Directive, Directives};
use qsg_requests::{Answer, Reply, Transcript, Verb};
use std::alloc::{AllocError, Global};

/// The first word of a directive.
pub fn verb_of(directive: &Directive) -> Verb
    ensures { result ≡ verb_of directive.now }
{
    match directive {
        Directive::Put { .. } => Verb::Put,
        Directive::Get { .. } => Verb::Get,
        Directive::Commit => Verb::Commit,
        Directive::Backout => Verb::Backout,
        Directive::Wait(..) => Verb::Wait,
        Directive::Backup(_) => Verb::Backup,
        Directive::Recover(..) => Verb::Recover,
        Directive::ResetSmds(..) => Verb::Reset,
        Directive::DisplayCfstatus(_) | Directive::DisplayQueue(_) | Directive::DisplaySmds(_) =>
            Verb::Display,
        Directive::Crash(..) => Verb::Crash,
        Directive::Start(_) => Verb::Start,
        Directive::Stop(_) => Verb::Stop,
        Directive::Lose(_) => Verb::Lose,
    }
}

/// Whether two actors are the same.
pub(crate) fn same_actor(a: Actor, b: Actor) -> bool
    ensures { result ≡ same_actor a b }
{
    match (a, b) {
        (Actor::Task(m, t), Actor::Task(n, u)) => m.get() == n.get() && t.get() == u.get(),
        (Actor::Operator, Actor::Operator) => true,
        (Actor::Task(..), Actor::Operator) | (Actor::Operator, Actor::Task(..)) => false,
    }
}

/// The directives of one actor, with its answers.
#[derive(Drop)]
pub(crate) struct Part {
    pub actor: Actor,
    pub directives: Directives,
    pub transcript: Transcript,
}
