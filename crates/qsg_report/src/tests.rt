//! Reports of small groups.

use super::*;
use qsg_lists::{Entry, Head, Mark, Place, State};
use qsg_model::{History, Item, Op, Ops};
use qsg_num::{
    Actor, Block, Blocks, Bytes, Delivery, EntryId, Incarnation, Member, Name, Priority, QueueName,
    Rules, StructNo, TaskNo, UnitName,
};
use qsg_objects::{CfstructDef, Definition, Objects, QlocalDef, Size, Sizes};
use qsg_requests::{Answer, Cause, Reply, Transcripts, Verb};
use std::alloc::Global;
use std::test::*;

const TASK: Actor = Actor::Task(Member::One, TaskNo::One);

fn queue_name(alloc: Global) -> Result<QueueName, Fail> {
    Ok(QueueName::from_name(Name::from_str(alloc, "Q1")?)?)
}

/// A group of one member, without structures and queues.
fn alone(alloc: Global) -> Result<Shown, Fail> {
    let member = ShownMember {
        name: Name::from_str(alloc, "QM1")?,
        up: true,
        last: Incarnation { number: 1 },
        pages: 2,
        size: 8_192,
    };
    Ok(Shown {
        group: Name::from_str(alloc, "QSG1")?,
        members: vec![in alloc; member]?,
        structures: Vec::new(alloc),
        queues: Vec::new(alloc),
        datasets: Vec::new(alloc),
        failed: Vec::new(alloc),
        waits: Vec::new(alloc),
    })
}

/// What a task was answered, and the operator.
#[derive(Drop)]
struct Told {
    task: Vec<Answer>,
    operator: Vec<Answer>,
}

impl Transcripts for Told {
    ghost use Rattle.qsg_num.specs.declared.ids.Actor.TheVariants.{Task, Operator};

    ghost told = { λ t who. elim who [ Task m k ↦ t.task.items | Operator ↦ t.operator.items ] };

    fn transcript(&self, actor: Actor) -> &[Answer] {
        match actor {
            Actor::Task(..) => self.task.as_slice(),
            Actor::Operator => self.operator.as_slice(),
        }
    }
}

#[test]
fn an_answer_and_a_loss(rt: HostRuntime) -> Result<(), Fail> {
    let answer = Answer {
        verb: Verb::Commit,
        reply: Reply::Unit {
            unit: None,
            count: 0,
        },
        at: 0,
    };
    let told = Told {
        task: vec![in rt.alloc(); answer]?,
        operator: Vec::new(rt.alloc()),
    };
    let items = vec![in rt.alloc(); Item::Lost(StructNo::Two)]?;
    let text = report(
        rt.alloc(),
        &[TASK, Actor::Operator],
        &told,
        &History::from_vec(items),
        &alone(rt.alloc())?,
    )?;
    assert_eq!(rt;
        text.as_slice(),
        b"group QSG1\ntask QM1 1\n1 COMMIT OK - 0\nlost 2\nlog QM1 pages 2 of 8192\nmember QM1 up 1\nfinished\n".as_slice()
    );
    Ok(())
}

#[test]
fn a_member_that_was_resolved_for(rt: HostRuntime) -> Result<(), Fail> {
    let incarnation = Incarnation { number: 1 };
    let resolved = Answer {
        verb: Verb::System,
        reply: Reply::Resolved {
            member: Member::One,
            incarnation,
            settled: 2,
        },
        at: 0,
    };
    let crash = Answer {
        verb: Verb::Crash,
        reply: Reply::Done,
        at: 0,
    };
    let told = Told {
        task: vec![in rt.alloc(); resolved]?,
        operator: vec![in rt.alloc(); crash]?,
    };
    let mut shown = alone(rt.alloc())?;
    shown.failed.push(ShownFailure {
        member: Member::One,
        incarnation,
        resolved: true,
        counts: [0, 2, 0, 0, 0, 0, 0, 1],
    })?;
    let text = report(
        rt.alloc(),
        &[Actor::Task(Member::One, TaskNo::System), Actor::Operator],
        &told,
        &History::new(rt.alloc()),
        &shown,
    )?;
    assert_eq!(rt;
        text.as_slice(),
        b"group QSG1\ntask QM1 0\n1 RESOLVED QM1/1 2\noperator\n1 CRASH OK\nfailed QM1/1 resolved 2 2 8 1\nlog QM1 pages 2 of 8192\nmember QM1 up 1\nfinished\n".as_slice()
    );
    Ok(())
}

/// The structure and the queue of the names APP1 and Q1, with the defaults of DEFINE.
fn objects(alloc: Global) -> Result<Objects, Fail> {
    let mut objects = Objects::new(alloc);
    objects.define(Definition::Cfstruct(CfstructDef {
        name: Name::from_str(alloc, "APP1")?,
        dsgroup: Bytes::from_slice(alloc, b"QSG1.*.APP1")?,
        recover: true,
        rules: Rules {
            threshold: [70, 80, 90],
            size_k: [32, 4, 0],
        },
        dsblock: 262_144,
        dsbufs: None,
        dsexpand: None,
        descr: None,
    }))?;
    objects.define(Definition::Qlocal(QlocalDef {
        name: queue_name(alloc)?,
        cfstruct: Name::from_str(alloc, "APP1")?,
        put: true,
        get: true,
        defprty: Priority::Zero,
        defpsist: false,
        msgdlvsq: Delivery::Priority,
        maxdepth: 999_999_999,
        maxmsgl: 4_194_304,
        descr: None,
    }))?;
    Ok(objects)
}

#[test]
fn definitions_with_their_defaults(rt: HostRuntime) -> Result<(), Fail> {
    let sizes = vec![in rt.alloc();
        Size {
            elements: 65_536,
            blocks: 64
        },
    ]?;
    let text = definitions(rt.alloc(), &objects(rt.alloc())?, &Sizes::from_vec(sizes))?;
    assert_eq!(rt;
        text.as_slice(),
        b"cfstruct APP1 recover YES dsblock 262144 rules 70/32768 80/4096 90/0 elements 65536 blocks 64\nqueue Q1 structure APP1 put ENABLED get ENABLED pri 0 pers NO order PRIORITY depth 999999999 length 4194304\n".as_slice()
    );
    Ok(())
}

#[test]
fn a_summary(rt: HostRuntime) -> Result<(), Fail> {
    let got = Ops::from_vec(vec![in rt.alloc(); (StructNo::One, Op::Got(EntryId { number: 1 }))]?);
    let unit = UnitName {
        member: Member::One,
        incarnation: Incarnation { number: 1 },
        seq: 1,
    };
    let items = vec![in rt.alloc(); Item::Unit(unit, got), Item::Purged(StructNo::One)]?;
    let text = summary(rt.alloc(), &History::from_vec(items), false)?;
    assert_eq!(rt;
        text.as_slice(),
        b"units 1\nput 0\ngot 1\nlost 0\npurged 1\nheld 0\nstuck\n".as_slice()
    );
    Ok(())
}

/// A structure with one entry that unit 1 of member 2 got, its body outside.
fn structure(alloc: Global) -> Result<ShownStructure, Fail> {
    let head = Head {
        queue: queue_name(alloc)?,
        priority: Priority::Five,
        persistent: true,
        msg_id: [0; 24],
        correl_id: [0; 24],
    };
    let blocks = vec![in alloc; Block { number: 0 }, Block { number: 7 }]?;
    let entry = Entry {
        id: EntryId { number: 3 },
        head,
        place: Place::Offloaded {
            owner: Member::One,
            blocks: Blocks::from_vec(blocks),
            length: 70_000,
        },
        mark: Mark::GotBy(UnitName {
            member: Member::Two,
            incarnation: Incarnation { number: 4 },
            seq: 1,
        }),
    };
    Ok(ShownStructure {
        name: Name::from_str(alloc, "APP1")?,
        state: State::InRecover(Member::One, Incarnation { number: 1 }),
        epoch: 1,
        used: 2,
        capacity: 1_000,
        entries: vec![in alloc; entry]?,
    })
}

#[test]
fn a_group_that_is_stuck(rt: HostRuntime) -> Result<(), Fail> {
    let mut shown = alone(rt.alloc())?;
    shown.structures.push(structure(rt.alloc())?)?;
    shown.queues.push(ShownQueue {
        name: queue_name(rt.alloc())?,
        depth: 1,
    })?;
    shown.datasets.push(ShownDataSet {
        member: Member::One,
        structure: StructNo::One,
        used: None,
        blocks: 64,
    })?;
    shown.failed.push(ShownFailure {
        member: Member::Two,
        incarnation: Incarnation { number: 4 },
        resolved: false,
        counts: [2, 0, 1, 0, 0, 0, 0, 0],
    })?;
    shown.waits.push(ShownWait {
        actor: TASK,
        cause: Cause::LogBusy(TaskNo::Three),
    })?;
    let told = Told {
        task: Vec::new(rt.alloc()),
        operator: Vec::new(rt.alloc()),
    };
    let history = History::new(rt.alloc());
    let text = report(rt.alloc(), &[TASK], &told, &history, &shown)?;
    assert_eq!(rt;
        text.as_slice(),
        b"group QSG1\nfailed 2/4 unresolved QM1 2 3 1\nstructure APP1 inrecover QM1 epoch 1 used 2 of 1000\nentry 0.3 Q1 pri 5 pers 1 got 2/4/1 at QM1 length 70000 blocks 0 7\nqueue Q1 depth 1\ndataset QM1 APP1 used - of 64\nlog QM1 pages 2 of 8192\nmember QM1 up 1\nwaits QM1 1 logbusy 3\nstuck\n".as_slice()
    );
    Ok(())
}
