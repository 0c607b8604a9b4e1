//! The plan at the end of a script.

ghost use Rattle.std.specs.Prelude.{◌≡◌, IfOk, map, length};
ghost use Rattle.std.specs.List.{AllByRecursion};
ghost use Rattle.qsg_draft.specs.Contents.{HasBlocks};
ghost use Rattle.qsg_draft.specs.Sections.{seen};
ghost use Rattle.qsg_draft.specs.Sizes.{size_of};
ghost use Rattle.qsg_draft.specs.Plans.{works_of, plan_of};

use crate::drafts::Draft;
use crate::sections::has_section_of;
use crate::sizes::{size_of, structure_at};
use qsg_num::{Actor, StructNo};
use qsg_objects::{Directive, Directives, MemberDefs, Objects, Plan, Size, Sizes, Turns, Works};
use std::alloc::{AllocError, Global};

/// The sizes of the structures, in order of their numbers.
fn sizes_of(
    alloc: Global,
    objects: &Objects,
    facilities: &[(StructNo, Size)],
) -> Result<Vec<Size>, AllocError>
    requires { AllByRecursion HasBlocks objects.now.structures }
    ensures { IfOk result (λ sizes. sizes.items ≡ map (size_of facilities.now) objects.now.structures) }
{
    let mut sizes = Vec::new(alloc);
    for at in 0..objects.structure_count() {
        if let Some(structure) = structure_at(objects, at) {
            sizes
                .push(size_of(facilities, structure))
                .map_err(|_| AllocError)?;
        }
    }
    Ok(sizes)
}

/// The works that sections are.
fn as_works(
    alloc: Global,
    sections: Vec<(Actor, Vec<Directive>)>,
) -> Result<Vec<(Actor, Directives)>, AllocError>
    ensures { IfOk result (λ works. works.items ≡ seen sections.items) }
{
    sections
        .into_iter()
        .map(|s| (s.0, Directives::from_vec(s.1)))
        .collect(alloc)
}

/// The works that sections are, with one of the operator in any case.
fn works_of(
    alloc: Global,
    sections: Vec<(Actor, Vec<Directive>)>,
) -> Result<Vec<(Actor, Directives)>, AllocError>
    ensures { IfOk result (λ works. works.items ≡ works_of (seen sections.items)) }
{
    let has_operator = has_section_of(sections.as_slice(), Actor::Operator);
    let mut works = as_works(alloc, sections)?;
    if has_operator {
        return Ok(works);
    }
    let nothing = Directives::from_vec(Vec::new(alloc));
    works
        .push((Actor::Operator, nothing))
        .map_err(|_| AllocError)?;
    Ok(works)
}

impl Draft {
    /// The plan that it is.
    pub fn into_plan(self) -> Result<Plan, AllocError>
        ensures { IfOk result (λ plan. plan ≡ plan_of self) }
    {
        let sizes = sizes_of(self.alloc, &self.objects, self.facilities.as_slice())?;
        let works = works_of(self.alloc, self.sections)?;
        Ok(Plan {
            group: self.group,
            members: MemberDefs::from_vec(self.members),
            sizes: Sizes::from_vec(sizes),
            objects: self.objects,
            works: Works::from_vec(works),
            schedule: Turns::from_vec(self.turns),
        })
    }
}
