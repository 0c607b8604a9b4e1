//! The plan as read so far, and its look-ups.

ghost use Rattle.std.specs.Prelude.{◌≡◌, ◌≤◌, ◌<◌, ◌+◌, length, IfSome};
ghost use Rattle.std.specs.List.{list_any, position};
ghost use Rattle.qsg_objects.specs.Registry.{number_named, refusal};
ghost use Rattle.qsg_draft.specs.Lookups.{is_member, member_named, is_facility, has_facility, has_section};
ghost use Rattle.qsg_draft.specs.Sizes.{blocks_in, device_bytes};

use crate::sections::has_section_of;
use crate::sizes::device_bytes;
use crate::stages::Stage;
use qsg_num::{Actor, Member, Name, QUEUES, STRUCTURES, StructNo};
use qsg_objects::{Definition, Directive, MemberDef, ObjectFault, Objects, Size};
use std::alloc::Global;
use std::marker::Model;

/// The plan of a script as far as it was read.
#[derive(Drop)]
pub struct Draft {
    pub(crate) alloc: Global,
    pub(crate) stage: Stage,
    pub(crate) group: Name,
    pub(crate) members: Vec<MemberDef>,
    pub(crate) objects: Objects,
    pub(crate) facilities: Vec<(StructNo, Size)>,
    pub(crate) sections: Vec<(Actor, Vec<Directive>)>,
    pub(crate) turns: Vec<(Actor, u32)>,
    pub(crate) bodies: u64,
    pub(crate) steps: u64,
}

impl Model for Draft {
    ghost use Rattle.qsg_draft.specs.Sections.{seen};
    ghost use Rattle.qsg_draft.specs.Contents.{Contents, IsInRange};

    ghost Value = { Contents };

    ghost view = { λ d. record {
      stage = d.stage;
      group = d.group;
      members = d.members.items;
      objects = d.objects;
      facilities = d.facilities.items;
      sections = seen d.sections.items;
      turns = d.turns.items;
      bodies = d.bodies;
      steps = d.steps;
    } };

    ghost invariant = { λ d. IsInRange (record {
      stage = d.stage;
      group = d.group;
      members = d.members.items;
      objects = d.objects;
      facilities = d.facilities.items;
      sections = seen d.sections.items;
      turns = d.turns.items;
      bodies = d.bodies;
      steps = d.steps;
    }) };
}

/// The place of the member of a name; None exactly where none has it.
fn place_named(members: &[MemberDef], name: &str) -> Option<usize>
    requires { length members.now ≤ 8 }
    ensures value { result ≡ position (is_member name.now) members.now }
    ensures bound { IfSome result (λ at. at < 8) }
{
    members.iter().position(|m| m.name.is(name))
}

impl Draft {
    ghost use Rattle.qsg_draft.specs.Contents.{nothing_read};

    /// A draft of which nothing was read. Takes no memory.
    pub fn new(alloc: Global) -> Draft
        ensures { result ≡ nothing_read }
    {
        Draft {
            alloc,
            stage: Stage::Start,
            group: Name::from_string(String::new(alloc)),
            members: Vec::new(alloc),
            objects: Objects::new(alloc),
            facilities: Vec::new(alloc),
            sections: Vec::new(alloc),
            turns: Vec::new(alloc),
            bodies: 0,
            steps: 0,
        }
    }

    /// Where the next statement stands.
    pub fn stage(&self) -> Stage
        ensures { result ≡ self.now.stage }
    {
        self.stage
    }

    /// How many members stand in it.
    pub fn member_count(&self) -> usize
        ensures value { result ≡ length self.now.members }
        ensures bound { result ≤ 8 }
    {
        self.members.len()
    }

    /// The member of a name; None exactly where none has it.
    pub fn member_named(&self, name: &str) -> Option<Member>
        ensures { result ≡ member_named name.now self.now }
    {
        match place_named(self.members.as_slice(), name) {
            Some(at) => Member::new(at as u8 + 1),
            None => None,
        }
    }

    /// The number of the structure of a name; None exactly where none has it.
    pub fn structure_named(&self, name: &str) -> Option<StructNo>
        ensures { result ≡ number_named name.now self.now.objects }
    {
        self.objects.structure_named(name)
    }

    /// Whether a structure has a FACILITY.
    pub fn has_facility(&self, structure: StructNo) -> bool
        ensures { result ≡ has_facility structure self.now }
    {
        self.facilities.iter().any(|f| f.0 == structure)
    }

    /// Whether an actor has a section.
    pub fn has_section(&self, actor: Actor) -> bool
        ensures { result ≡ has_section actor self.now }
    {
        has_section_of(self.sections.as_slice(), actor)
    }

    /// How many whole blocks of a structure's data sets are in so many bytes; none where there is no such
    /// structure.
    pub fn blocks_in(&self, structure: StructNo, bytes: u32) -> u32
        ensures { result ≡ blocks_in structure bytes self.now }
    {
        match self.objects.structure(structure) {
            Some(structure) => bytes / structure.definition.dsblock,
            None => 0,
        }
    }

    /// The bytes of all bodies that are put. One past the limit stands for all above it.
    pub fn bodies(&self) -> u64
        ensures value { result ≡ self.now.bodies }
        ensures bound { result ≤ 268435457 }
    {
        self.bodies
    }

    /// The steps of the schedule. One past the limit stands for all above it.
    pub fn steps(&self) -> u64
        ensures value { result ≡ self.now.steps }
        ensures bound { result ≤ 10000001 }
    {
        self.steps
    }

    /// The bytes of all devices that the plan asks for.
    pub fn device_bytes(&self) -> u64
        ensures { result ≡ device_bytes self.now }
    {
        device_bytes(
            &self.objects,
            self.facilities.as_slice(),
            self.members.as_slice(),
        )
    }

    /// Why a definition is refused, by the first cause that holds; None where it isn't.
    pub fn refusal(&self, definition: &Definition) -> Option<ObjectFault>
        ensures { result ≡ refusal definition.now self.now.objects }
    {
        match definition {
            Definition::Cfstruct(d) => {
                if self.objects.structure_named(d.name.as_str()).is_some() {
                    Some(ObjectFault::AlreadyDefined)
                } else if self.objects.structure_count() >= STRUCTURES as usize {
                    Some(ObjectFault::TooMany)
                } else {
                    None
                }
            }
            Definition::Qlocal(d) => {
                if self.objects.queue(d.name.as_str()).is_some() {
                    Some(ObjectFault::AlreadyDefined)
                } else if self.objects.structure_named(d.cfstruct.as_str()).is_none() {
                    Some(ObjectFault::NoSuchStructure)
                } else if self.objects.queue_count() >= QUEUES {
                    Some(ObjectFault::TooMany)
                } else {
                    None
                }
            }
        }
    }
}
