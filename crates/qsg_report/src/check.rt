//! The definitions of a group.

ghost use Rattle.std.specs.Prelude.{◌≡◌, ◌-◌, ◌++◌, codes, OnOk, IfOk, slice_get};
ghost use Rattle.std.specs.List.{flat_map};
ghost use Rattle.qsg_num.specs.Seats.{structure_number};
ghost use Rattle.qsg_report.specs.Check.{yes_text, enabled_text, order_text, rule_text, rules_text, cfstruct_text, sized_text, numbered_text, access_text, limits_text, qlocal_text, placed_text, definitions_text};

use crate::words::push_named;
use qsg_answers::{push_counted, push_text};
use qsg_num::{Bytes, Delivery, Rules, StructNo};
use qsg_objects::{Cfstruct, Objects, Queue, Size, Sizes};
use std::alloc::{AllocError, Global};

/// All structures that a group may have, in order.
const EVERY_STRUCTURE: [StructNo; 4] = [
    StructNo::One,
    StructNo::Two,
    StructNo::Three,
    StructNo::Four,
];

/// Bytes of the unit of a rule's size.
const KILOBYTE: u64 = 1_024;

fn yes_word(yes: bool) -> &'static str
    ensures { result.now ≡ yes_text yes }
{
    if yes { "YES" } else { "NO" }
}

fn enabled_word(enabled: bool) -> &'static str
    ensures { result.now ≡ enabled_text enabled }
{
    if enabled { "ENABLED" } else { "DISABLED" }
}

fn order_word(order: Delivery) -> &'static str
    ensures { result.now ≡ order_text order }
{
    match order {
        Delivery::Priority => "PRIORITY",
        Delivery::Fifo => "FIFO",
    }
}

/// An offload rule: its threshold in percent, and its size in bytes.
fn push_rule(out: &mut Vec<u8>, threshold: u8, size_k: u8) -> Result<(), AllocError>
    ensures { OnOk result (out.new.items ≡ out.old.items ++ rule_text threshold size_k) }
{
    push_counted(out, b" ", u64::from(threshold))?;
    push_counted(out, b"/", u64::from(size_k) * KILOBYTE)
}

#[tactic(auto, unfolding(crate::specs::Check::rules_text))]
fn push_rules(out: &mut Vec<u8>, rules: &Rules) -> Result<(), AllocError>
    ensures { OnOk result (out.new.items ≡ out.old.items ++ rules_text rules.now) }
{
    push_text(out, b" rules")?;
    push_rule(out, rules.threshold[0], rules.size_k[0])?;
    push_rule(out, rules.threshold[1], rules.size_k[1])?;
    push_rule(out, rules.threshold[2], rules.size_k[2])
}

/// A line for a structure.
#[tactic(auto, unfolding(crate::specs::Check::cfstruct_text))]
fn push_cfstruct(out: &mut Vec<u8>, cfstruct: &Cfstruct, size: Size) -> Result<(), AllocError>
    ensures { OnOk result (out.new.items ≡ out.old.items ++ cfstruct_text cfstruct.now size) }
{
    let definition = &cfstruct.definition;
    push_named(out, b"cfstruct ", definition.name.as_str())?;
    push_named(out, b" recover ", yes_word(definition.recover))?;
    push_counted(out, b" dsblock ", u64::from(definition.dsblock))?;
    push_rules(out, &definition.rules)?;
    push_counted(out, b" elements ", u64::from(size.elements))?;
    push_counted(out, b" blocks ", u64::from(size.blocks))?;
    push_text(out, b"\n")
}

/// The size of a structure.
fn size_of(sizes: &[Size], structure: StructNo) -> Option<Size>
    ensures { result ≡ slice_get sizes.now (structure_number structure - 1) }
{
    sizes.get(structure.index()).copied()
}

/// A line for the structure of a number, where there is one.
fn push_numbered(
    out: &mut Vec<u8>,
    objects: &Objects,
    sizes: &[Size],
    structure: StructNo,
) -> Result<(), AllocError>
    ensures { OnOk result (out.new.items ≡ out.old.items ++ numbered_text objects.now sizes.now structure) }
{
    match (objects.structure(structure), size_of(sizes, structure)) {
        (Some(cfstruct), Some(size)) => push_cfstruct(out, cfstruct, size),
        _ => Ok(()),
    }
}

/// A line for each structure.
fn push_cfstructs(
    out: &mut Vec<u8>,
    objects: &Objects,
    sizes: &[Size],
    structures: &[StructNo],
) -> Result<(), AllocError>
    ensures { OnOk result (out.new.items ≡ out.old.items ++ flat_map (numbered_text objects.now sizes.now) structures.now) }
{
    for structure in structures {
        push_numbered(out, objects, sizes, *structure)?;
    }
    Ok(())
}

/// Where a queue is, and whether it is open.
#[tactic(auto, unfolding(crate::specs::Check::access_text))]
fn push_access(out: &mut Vec<u8>, queue: &Queue) -> Result<(), AllocError>
    ensures { OnOk result (out.new.items ≡ out.old.items ++ access_text queue.now) }
{
    let definition = &queue.definition;
    push_named(out, b"queue ", definition.name.as_str())?;
    push_named(out, b" structure ", definition.cfstruct.as_str())?;
    push_named(out, b" put ", enabled_word(definition.put))?;
    push_named(out, b" get ", enabled_word(definition.get))
}

/// What a queue gives a message, in which order it delivers, and its limits.
#[tactic(auto, unfolding(crate::specs::Check::limits_text))]
fn push_limits(out: &mut Vec<u8>, queue: &Queue) -> Result<(), AllocError>
    ensures { OnOk result (out.new.items ≡ out.old.items ++ limits_text queue.now) }
{
    let definition = &queue.definition;
    push_counted(out, b" pri ", u64::from(definition.defprty.get()))?;
    push_named(out, b" pers ", yes_word(definition.defpsist))?;
    push_named(out, b" order ", order_word(definition.msgdlvsq))?;
    push_counted(out, b" depth ", u64::from(definition.maxdepth))?;
    push_counted(out, b" length ", u64::from(definition.maxmsgl))?;
    push_text(out, b"\n")
}

/// A line for a queue.
fn push_qlocal(out: &mut Vec<u8>, queue: &Queue) -> Result<(), AllocError>
    ensures { OnOk result (out.new.items ≡ out.old.items ++ qlocal_text queue.now) }
{
    push_access(out, queue)?;
    push_limits(out, queue)
}

/// A line for the queue at a place, where there is one.
fn push_qlocal_at(out: &mut Vec<u8>, objects: &Objects, at: usize) -> Result<(), AllocError>
    ensures { OnOk result (out.new.items ≡ out.old.items ++ placed_text (slice_get objects.now.queues at)) }
{
    match objects.queue_at(at) {
        Some(queue) => push_qlocal(out, queue),
        None => Ok(()),
    }
}

/// A line for each queue.
fn push_qlocals(out: &mut Vec<u8>, objects: &Objects) -> Result<(), AllocError>
    ensures { OnOk result (out.new.items ≡ out.old.items ++ flat_map qlocal_text objects.now.queues) }
{
    for at in 0..objects.queue_count() {
        push_qlocal_at(out, objects, at)?;
    }
    Ok(())
}

/// The definitions of a group, with the sizes of its structures, in order of their numbers. A structure without a size
/// isn't told of.
pub fn definitions(alloc: Global, objects: &Objects, sizes: &Sizes) -> Result<Bytes, AllocError>
    ensures { IfOk result (λ text. text ≡ definitions_text objects.now sizes.now) }
{
    let mut out = Vec::new(alloc);
    push_cfstructs(&mut out, objects, sizes.as_slice(), &EVERY_STRUCTURE)?;
    push_qlocals(&mut out, objects)?;
    Ok(Bytes::from_vec(out))
}
