//! Texts with names and sizes in them.

ghost use Rattle.std.specs.Prelude.{◌≡◌, ◌++◌, map, codes, OnOk, IfOk};
ghost use Rattle.std.specs.Fmt.{decimal};
ghost use Rattle.qsg_answers.specs.Answers.{line_end};
ghost use Rattle.qsg_report.specs.Words.{labels_of, member_names, structure_names, of_text, number_or_dash};

use crate::shown::{Shown, ShownMember, ShownStructure};
use qsg_answers::{Labels, push_counted, push_number, push_text};
use qsg_num::Name;
use std::alloc::{AllocError, Global};

/// A text, and a name behind it.
pub(crate) fn push_named(out: &mut Vec<u8>, text: &[u8], name: &str) -> Result<(), AllocError>
    ensures { OnOk result (out.new.items ≡ out.old.items ++ text.now ++ name.now) }
{
    push_text(out, text)?;
    push_text(out, name.as_bytes())
}

/// So many of so many, at the end of a line.
pub(crate) fn push_of(out: &mut Vec<u8>, some: u32, all: u32) -> Result<(), AllocError>
    ensures { OnOk result (out.new.items ≡ out.old.items ++ of_text some all) }
{
    push_number(out, u64::from(some))?;
    push_counted(out, b" of ", u64::from(all))?;
    push_text(out, b"\n")
}

/// A number, or a dash where there is none.
pub(crate) fn push_number_or_dash(out: &mut Vec<u8>, number: Option<u32>) -> Result<(), AllocError>
    ensures { OnOk result (out.new.items ≡ out.old.items ++ number_or_dash number) }
{
    match number {
        Some(n) => push_number(out, u64::from(n)),
        None => push_text(out, b"-"),
    }
}

/// The names of members.
fn member_names(alloc: Global, members: &[ShownMember]) -> Result<Vec<Name>, AllocError>
    ensures { IfOk result (λ names. names.items ≡ member_names members.now) }
{
    let mut names = Vec::new(alloc);
    for member in members {
        names.push(Name::from_str(alloc, member.name.as_str())?)?;
    }
    Ok(names)
}

/// The names of structures.
fn structure_names(alloc: Global, structures: &[ShownStructure]) -> Result<Vec<Name>, AllocError>
    ensures { IfOk result (λ names. names.items ≡ structure_names structures.now) }
{
    let mut names = Vec::new(alloc);
    for structure in structures {
        names.push(Name::from_str(alloc, structure.name.as_str())?)?;
    }
    Ok(names)
}

/// The names that members and structures have.
pub(crate) fn labels_of(alloc: Global, shown: &Shown) -> Result<Labels, AllocError>
    ensures { IfOk result (λ labels. labels ≡ labels_of shown.now) }
{
    let members = member_names(alloc, &shown.members)?;
    let structures = structure_names(alloc, &shown.structures)?;
    Ok(Labels::new(members, structures))
}
