//! The directives of one task, answered in order.

use super::*;
use qsg_num::{Actor, Member, TaskNo};
use qsg_objects::{Directive, Directives, Works};
use qsg_requests::{Reply, Verb};
use std::test::*;

const TASK: Actor = Actor::Task(Member::One, TaskNo::Two);

/// Answers the next directive of an actor, and tells whether there was one.
fn answer(agenda: &mut Agenda, actor: Actor) -> bool {
    if agenda.next(actor).is_none() {
        return false;
    }
    agenda.answer(actor, Reply::Done, 0);
    true
}

/// The directive that an answer of an actor was of.
fn answered(agenda: &Agenda, actor: Actor, at: usize) -> Option<Verb> {
    agenda.transcript(actor).get(at).map(|answer| answer.verb)
}

#[test]
fn directives_are_answered_in_order(rt: HostRuntime) -> Result<(), Fail> {
    let directives = vec![in rt.alloc(); Directive::Commit, Directive::Wait(Actor::Operator, 1)]?;
    let works = vec![in rt.alloc(); (TASK, Directives::from_vec(directives))]?;
    let mut agenda = Agenda::new(rt.alloc(), Works::from_vec(works))?;
    assert!(rt; !answer(&mut agenda, Actor::Operator));
    assert!(rt; answer(&mut agenda, TASK));
    assert!(rt; !agenda.is_through());
    assert!(rt; answer(&mut agenda, TASK));
    assert!(rt; agenda.is_through());
    assert!(rt; !answer(&mut agenda, TASK));
    assert_eq!(rt; agenda.answers(TASK), 2);
    assert_eq!(rt; answered(&agenda, TASK, 1), Some(Verb::Wait));
    Ok(())
}
