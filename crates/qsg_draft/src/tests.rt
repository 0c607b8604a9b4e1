//! A plan of two members, and the sums of a draft.

ghost use Rattle.std.specs.Prelude.{◌≡◌, ◌<◌, ◌≤◌, ◌+◌, length, IfOk, OnOk};
ghost use Rattle.qsg_draft.specs.Additions.{IsBlockRight};

use crate::{Draft, Stage};
use qsg_num::{Actor, Bytes, Member, Name, QueueName, Rules, StructNo, TaskNo};
use qsg_objects::{
    BodyWord, CfstructDef, Definition, Directive, MemberDef, ObjectFault, Plan, Size,
};
use std::alloc::{AllocError, Global};
use std::test::Fail;

/// Adds a member with a log of 16 pages.
fn add_member(alloc: Global, draft: &mut Draft, name: &str) -> Result<(), AllocError>
    requires { length draft.old.members < 8 }
    ensures { OnOk result (length draft.new.members ≡ length draft.old.members + 1) }
{
    let name = Name::from_str(alloc, name)?;
    draft.add_member(MemberDef {
        name,
        log_pages: 16,
        pick: 0,
    })
}

/// A structure with blocks of so many bytes.
fn structure(alloc: Global, name: &str, dsblock: u32) -> Result<Definition, AllocError>
    requires { (8192 ≤ dsblock) × (dsblock ≤ 1048576) }
    ensures { IfOk result IsBlockRight }
{
    Ok(Definition::Cfstruct(CfstructDef {
        name: Name::from_str(alloc, name)?,
        dsgroup: Bytes::from_slice(alloc, b"A.*")?,
        recover: true,
        rules: Rules {
            threshold: [70, 80, 90],
            size_k: [32, 4, 0],
        },
        dsblock,
        dsbufs: None,
        dsexpand: None,
        descr: None,
    }))
}

/// Defines a structure where that isn't refused, and says why it is.
fn add_structure(
    alloc: Global,
    draft: &mut Draft,
    name: &str,
    dsblock: u32,
) -> Result<Option<ObjectFault>, AllocError>
    requires { (8192 ≤ dsblock) × (dsblock ≤ 1048576) }
{
    let definition = structure(alloc, name, dsblock)?;
    let refused = draft.refusal(&definition);
    if refused.is_none() {
        draft.define(definition)?;
    }
    Ok(refused)
}

/// Two members, and two structures, the first of them with a FACILITY.
fn define(alloc: Global, draft: &mut Draft) -> Result<(), AllocError>
    requires { length draft.old.members ≡ 0 }
{
    add_member(alloc, draft, "QM1")?;
    add_member(alloc, draft, "QM2")?;
    add_structure(alloc, draft, "APP1", 8_192)?;
    add_structure(alloc, draft, "APP2", 1_048_576)?;
    let size = Size {
        elements: 9,
        blocks: 2,
    };
    draft.add_facility(StructNo::One, size)
}

#[test]
fn what_a_draft_has(rt: HostRuntime) -> Result<(), Fail> {
    let alloc = rt.alloc();
    let mut draft = Draft::new(alloc);
    define(alloc, &mut draft)?;
    assert_eq!(rt; draft.member_named("QM2"), Some(Member::Two));
    assert_eq!(rt; draft.structure_named("APP3"), None);
    assert_eq!(rt; draft.blocks_in(StructNo::Two, 16_777_216), 16);
    assert!(rt; draft.has_facility(StructNo::One) && !draft.has_section(Actor::Operator));
    // Each member has a log, a data set of 2 blocks of 8 KiB, and one of 16 blocks of 1 MiB.
    let sets = 2 * 4_096 + 2 * 8_192 + 16 * 1_048_576;
    assert_eq!(rt; draft.device_bytes(), 2 * (16 * 4_096 + sets));
    Ok(())
}

/// A directive that puts 500 bytes.
fn put(alloc: Global) -> Result<Directive, AllocError> {
    match QueueName::from_name(Name::from_str(alloc, "Q1")?) {
        Ok(queue) => Ok(Directive::Put {
            queue,
            body: BodyWord::Size(500),
            priority: None,
            persistent: None,
            msg_id: [0; 24],
            correl_id: [0; 24],
        }),
        Err(_) => Err(AllocError),
    }
}

/// The section of QM2 1, and then that of QM1 4 with a put; and one line of a schedule.
fn work(alloc: Global, draft: &mut Draft) -> Result<(), AllocError> {
    draft.start(Name::from_str(alloc, "QSG1")?);
    draft.open_section(Actor::Task(Member::Two, TaskNo::One))?;
    draft.open_section(Actor::Task(Member::One, TaskNo::Four))?;
    draft.add_directive(put(alloc)?)?;
    draft.open_schedule();
    draft.add_turn(Actor::Operator, 7)?;
    draft.end();
    Ok(())
}

/// Each actor of a plan, with the number of its directives.
fn order_of(alloc: Global, plan: &Plan) -> Result<Vec<(Actor, usize)>, AllocError> {
    let mut order = Vec::new(alloc);
    for work in plan.works.as_slice() {
        order.push((work.0, work.1.len())).map_err(|_| AllocError)?;
    }
    Ok(order)
}

#[test]
fn works_in_order(rt: HostRuntime) -> Result<(), Fail> {
    let alloc = rt.alloc();
    let mut draft = Draft::new(alloc);
    work(alloc, &mut draft)?;
    assert!(rt; draft.stage() == Stage::Ended && draft.bodies() == 500 && draft.steps() == 7);
    let plan = draft.into_plan()?;
    let order = order_of(alloc, &plan)?;
    let wanted = [
        (Actor::Task(Member::One, TaskNo::Four), 1),
        (Actor::Task(Member::Two, TaskNo::One), 0),
        (Actor::Operator, 0),
    ];
    assert_eq!(rt; order.as_slice(), wanted.as_slice());
    Ok(())
}
