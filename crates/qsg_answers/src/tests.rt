//! Answers and waits as they are printed.

use super::*;
use qsg_msg::Message;
use qsg_num::{
    Actor, Body, EntryId, Incarnation, LogWhy, Member, Name, PageNo, Priority, QueueName, StructNo,
    TaskNo, UnitName,
};
use qsg_offload::Placed;
use qsg_requests::{Answer, Cause, Reason, Reply, Short, Verb};
use std::alloc::Global;
use std::test::*;

/// One member and one structure with a name; all others have none.
fn labels(alloc: Global) -> Result<Labels, Fail> {
    let members = vec![in alloc; Name::from_str(alloc, "QM1")?]?;
    let structures = vec![in alloc; Name::from_str(alloc, "APP1")?]?;
    Ok(Labels::new(members, structures))
}

fn unit(member: Member) -> UnitName {
    UnitName {
        member,
        incarnation: Incarnation { number: 1 },
        seq: 4_294_967_295,
    }
}

/// An answer that was given first.
fn answer(verb: Verb, reply: Reply) -> Answer {
    Answer { verb, reply, at: 0 }
}

#[test]
fn puts_and_units(rt: HostRuntime) -> Result<(), Fail> {
    let put = Reply::PutOk {
        id: EntryId {
            number: 1_099_511_627_777,
        },
        placed: Placed::Rule3,
    };
    let done = Reply::Unit {
        unit: Some(unit(Member::One)),
        count: 1,
    };
    let answers = vec![in rt.alloc();
        answer(Verb::Put, put),
        answer(Verb::Commit, done),
        answer(
            Verb::Backout,
            Reply::Unit {
                unit: None,
                count: 0
            }
        ),
    ]?;
    let mut out = Vec::new(rt.alloc());
    push_answers(&mut out, &labels(rt.alloc())?, answers.as_slice())?;
    assert_eq!(rt;
        out.as_slice(),
        b"1 PUT OK 1.1 rule3\n2 COMMIT OK QM1/1/4294967295 1\n3 BACKOUT OK - 0\n".as_slice()
    );
    Ok(())
}

#[test]
fn a_message(rt: HostRuntime) -> Result<(), Fail> {
    let alloc = rt.alloc();
    let Ok(queue) = QueueName::from_name(Name::from_str(alloc, "Q1")?) else {
        panic!(rt; "Q1 is the name of a queue");
    };
    let mut msg_id = [0; 24];
    msg_id[23] = 171;
    let message = Message {
        id: EntryId { number: 2 },
        structure: StructNo::One,
        queue,
        priority: Priority::Nine,
        persistent: true,
        msg_id,
        correl_id: [0; 24],
        body: Body::from_slice(alloc, b"01234567890123456789012345678901z")?,
    };
    let mut out = Vec::new(alloc);
    push_answer(
        &mut out,
        &labels(alloc)?,
        10,
        &answer(Verb::Get, Reply::Got(message)),
    )?;
    assert_eq!(rt;
        out.as_slice(),
        b"10 GET OK 0.2 pri 9 pers 1 msgid 0000000000000000000000000000000000000000000000ab correlid - body 33 30313233343536373839303132333435-3738393031323334353637383930317a\n".as_slice()
    );
    Ok(())
}

#[test]
fn reasons_and_waits(rt: HostRuntime) -> Result<(), Fail> {
    let labels = labels(rt.alloc())?;
    let full = Reason::StorageFull {
        place: Short::Dataset,
        need: 2,
        free: 0,
    };
    let mut out = Vec::new(rt.alloc());
    push_answer(
        &mut out,
        &labels,
        1,
        &answer(Verb::Put, Reply::Refused(full)),
    )?;
    push_cause(
        &mut out,
        &labels,
        Cause::Until(Actor::Task(Member::Two, TaskNo::System), 7),
    )?;
    assert_eq!(rt;
        out.as_slice(),
        b"1 PUT 2192 dataset need 2 free 0\nuntil 2 0 7".as_slice()
    );
    Ok(())
}

/// A log of member 1 that can't be read on.
fn log_fault(why: LogWhy) -> Reply {
    Reply::Refused(Reason::LogFault {
        member: Member::One,
        why,
    })
}

#[test]
fn members_that_end_and_start(rt: HostRuntime) -> Result<(), Fail> {
    let page = PageNo { number: 3 };
    let started = Reply::Started {
        incarnation: Incarnation { number: 2 },
    };
    let answers = vec![in rt.alloc();
        answer(Verb::Commit, Reply::Refused(Reason::ConnectionBroken)),
        answer(Verb::Crash, Reply::Refused(Reason::Down)),
        answer(Verb::Start, Reply::Refused(Reason::Up)),
        answer(Verb::Start, log_fault(LogWhy::Device)),
        answer(Verb::Start, log_fault(LogWhy::BadPage { page, at: 21 })),
        answer(Verb::Start, log_fault(LogWhy::BadRecord { page, at: 10 })),
        answer(Verb::Start, started),
    ]?;
    let mut out = Vec::new(rt.alloc());
    push_answers(&mut out, &labels(rt.alloc())?, answers.as_slice())?;
    assert_eq!(rt;
        out.as_slice(),
        b"1 COMMIT 2009\n2 CRASH DOWN\n3 START UP\n4 START LOGFAULT QM1 device\n5 START LOGFAULT QM1 page 3 at 21\n6 START LOGFAULT QM1 record 3 at 10\n7 START OK 2\n".as_slice()
    );
    Ok(())
}

#[test]
fn system_tasks(rt: HostRuntime) -> Result<(), Fail> {
    let labels = labels(rt.alloc())?;
    let resolved = Reply::Resolved {
        member: Member::One,
        incarnation: Incarnation { number: 1 },
        settled: 2,
    };
    let page = PageNo { number: 0 };
    let gave_up = Reply::Refused(Reason::GaveUp {
        member: Member::Two,
        incarnation: Incarnation { number: 4 },
        why: LogWhy::BadPage { page, at: 2 },
    });
    let answers = vec![in rt.alloc();
        answer(Verb::System, resolved),
        answer(Verb::System, gave_up),
    ]?;
    let mut out = Vec::new(rt.alloc());
    push_answers(&mut out, &labels, answers.as_slice())?;
    push_cause(
        &mut out,
        &labels,
        Cause::Reading(Member::Two, TaskNo::System),
    )?;
    assert_eq!(rt;
        out.as_slice(),
        b"1 RESOLVED QM1/1 2\n2 GAVEUP 2/4 page 0 at 2\nreading 2 0".as_slice()
    );
    Ok(())
}

#[test]
fn data_sets_that_fail_and_members_that_stop(rt: HostRuntime) -> Result<(), Fail> {
    let labels = labels(rt.alloc())?;
    let answers = vec![in rt.alloc();
        answer(Verb::Put, Reply::Refused(Reason::DataSetFault)),
        answer(Verb::Stop, Reply::Done),
    ]?;
    let mut out = Vec::new(rt.alloc());
    push_answers(&mut out, &labels, answers.as_slice())?;
    push_cause(&mut out, &labels, Cause::Quiescing(TaskNo::Two))?;
    assert_eq!(rt;
        out.as_slice(),
        b"1 PUT DSFAULT\n2 STOP OK\nquiescing 2".as_slice()
    );
    Ok(())
}
