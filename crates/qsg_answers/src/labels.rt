//! The names of members and structures, and what is named by them.

ghost use Rattle.std.specs.Prelude.{◌≡◌, ◌++◌, ◌≤◌, OnOk, slice_get, option_copied};
ghost use Rattle.qsg_answers.specs.Labels.{label_of, name_or, member_text, structure_text, incarnation_text, unit_text, state_text};

use crate::texts::{push_counted, push_number, push_text};
use qsg_lists::State;
use qsg_num::{Incarnation, Member, Name, StructNo, UnitName};
use std::alloc::AllocError;
use std::marker::Model;

/// Names of members and of structures, each in order of the numbers from 1.
#[derive(Drop)]
pub struct Labels {
    members: Vec<Name>,
    structures: Vec<Name>,
}

impl Model for Labels {
    ghost use Rattle.qsg_answers.specs.Labels.{Labelling};

    ghost Value = { Labelling };

    ghost view = { λ l. record { members = l.members.items; structures = l.structures.items } };
}

impl Labels {
    /// These names. Takes no memory.
    pub fn new(members: Vec<Name>, structures: Vec<Name>) -> Labels
        ensures { result ≡ record { members = members.items; structures = structures.items } }
    {
        Labels {
            members,
            structures,
        }
    }
}

/// The name at a place.
fn name_at(names: &[Name], at: usize) -> Option<&Name>
    ensures { option_copied result ≡ slice_get names.now at }
{
    names.get(at)
}

/// The name of a number from 1, or the number where it has none.
fn push_label(out: &mut Vec<u8>, names: &[Name], number: u8) -> Result<(), AllocError>
    requires { 1 ≤ number }
    ensures { OnOk result (out.new.items ≡ out.old.items ++ label_of number names.now) }
{
    match name_at(names, usize::from(number) - 1) {
        Some(name) => push_text(out, name.as_str().as_bytes()),
        None => push_number(out, u64::from(number)),
    }
}

/// A member: its name, or its number where it has none.
pub fn push_member(out: &mut Vec<u8>, labels: &Labels, member: Member) -> Result<(), AllocError>
    ensures { OnOk result (out.new.items ≡ out.old.items ++ member_text labels.now member) }
{
    push_label(out, &labels.members, member.get())
}

/// A structure: its name, or its number where it has none.
pub fn push_structure(
    out: &mut Vec<u8>,
    labels: &Labels,
    structure: StructNo,
) -> Result<(), AllocError>
    ensures { OnOk result (out.new.items ≡ out.old.items ++ structure_text labels.now structure) }
{
    push_label(out, &labels.structures, structure.get())
}

/// An incarnation: its member and its number.
pub fn push_incarnation(
    out: &mut Vec<u8>,
    labels: &Labels,
    member: Member,
    incarnation: Incarnation,
) -> Result<(), AllocError>
    ensures { OnOk result (out.new.items ≡ out.old.items ++ incarnation_text labels.now member incarnation) }
{
    push_member(out, labels, member)?;
    push_counted(out, b"/", u64::from(incarnation.number))
}

/// A unit: its incarnation and its number.
pub fn push_unit(out: &mut Vec<u8>, labels: &Labels, unit: UnitName) -> Result<(), AllocError>
    ensures { OnOk result (out.new.items ≡ out.old.items ++ unit_text labels.now unit) }
{
    push_incarnation(out, labels, unit.member, unit.incarnation)?;
    push_counted(out, b"/", u64::from(unit.seq))
}

/// The state of a structure.
pub fn push_state(out: &mut Vec<u8>, labels: &Labels, state: State) -> Result<(), AllocError>
    ensures { OnOk result (out.new.items ≡ out.old.items ++ state_text labels.now state) }
{
    match state {
        State::Active => push_text(out, b"active"),
        State::Failed => push_text(out, b"failed"),
        State::InRecover(member, _) => {
            push_text(out, b"inrecover ")?;
            push_member(out, labels, member)
        }
    }
}
