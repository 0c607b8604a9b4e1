//! What each statement adds to a draft. Where memory runs out, a draft stays as it was.

ghost use Rattle.std.specs.Prelude.{◌≡◌, ◌≤◌, ◌<◌, ◌+◌, ◌^◌, None, length, OnOk, OnErr};
ghost use Rattle.qsg_objects.specs.Registry.{refusal};
ghost use Rattle.qsg_draft.specs.Additions.{with_group, with_member, with_definition, IsBlockRight, with_facility, with_section, with_directive, put_bytes, body_length, capped, with_schedule, with_turn, with_end};

use crate::drafts::Draft;
use crate::sections::{add_to_section, insert_section};
use crate::stages::Stage;
use qsg_num::{ALL_BODIES, Actor, Name, SCHEDULE_STEPS, StructNo};
use qsg_objects::{BodyWord, Definition, Directive, MemberDef, ObjectError, Size};
use std::alloc::AllocError;

/// A sum that stops one past its limit.
fn capped(limit: u64, sum: u64, more: u32) -> u64
    requires { (limit < 2 ^ 32) × (sum ≤ limit + 1) }
    ensures value { result ≡ capped limit (sum + more) }
    ensures bound { result ≤ limit + 1 }
{
    (sum + u64::from(more)).min(limit + 1)
}

/// The bytes of a body.
fn body_length(body: &BodyWord) -> u32
    ensures { result ≡ body_length body.now }
{
    match body {
        BodyWord::Given(bytes) => bytes.len(),
        BodyWord::Size(n) => *n,
    }
}

/// The bytes that a directive puts.
fn put_bytes(directive: &Directive) -> u32
    ensures { result ≡ put_bytes directive.now }
{
    match directive {
        Directive::Put { body, .. } => body_length(body),
        _ => 0,
    }
}

impl Draft {
    /// GROUP: what stands behind it are definitions. Takes no memory.
    pub fn start(&mut self, group: Name)
        ensures { self.new ≡ with_group group self.old }
    {
        self.group = group;
        self.stage = Stage::Definitions;
    }

    /// MEMBER: a member more, behind the others.
    pub fn add_member(&mut self, member: MemberDef) -> Result<(), AllocError>
        requires { length self.old.members < 8 }
        ensures ok { OnOk result (self.new ≡ with_member member self.old) }
        ensures err { OnErr result (self.new ≡ self.old) }
    {
        self.members.push(member).map_err(|_| AllocError)
    }

    /// DEFINE: an object more.
    pub fn define(&mut self, definition: Definition) -> Result<(), AllocError>
        requires accepted { refusal definition self.old.objects ≡ None }
        requires block { IsBlockRight definition }
        ensures ok { OnOk result (self.new ≡ with_definition definition self.old) }
        ensures err { OnErr result (self.new ≡ self.old) }
    {
        match self.objects.define(definition) {
            Ok(()) => Ok(()),
            Err(ObjectError::NoMemory) => Err(AllocError),
            Err(ObjectError::Fault(_)) => unreachable!(),
        }
    }

    /// FACILITY: the size of a structure.
    pub fn add_facility(&mut self, structure: StructNo, size: Size) -> Result<(), AllocError>
        ensures ok { OnOk result (self.new ≡ with_facility structure size self.old) }
        ensures err { OnErr result (self.new ≡ self.old) }
    {
        self.facilities
            .push((structure, size))
            .map_err(|_| AllocError)
    }

    /// TASK or OPERATOR: an empty section of an actor, which is the one at hand from now on.
    pub fn open_section(&mut self, actor: Actor) -> Result<(), AllocError>
        ensures ok { OnOk result (self.new ≡ with_section actor self.old) }
        ensures err { OnErr result (self.new ≡ self.old) }
    {
        insert_section(self.alloc, &mut self.sections, actor)?;
        self.stage = Stage::Section(actor);
        Ok(())
    }

    /// A directive more, at the end of the section at hand. Where there is no section, nothing is added.
    pub fn add_directive(&mut self, directive: Directive) -> Result<(), AllocError>
        ensures ok { OnOk result (self.new ≡ with_directive directive self.old) }
        ensures err { OnErr result (self.new ≡ self.old) }
    {
        let Stage::Section(actor) = self.stage else {
            return Ok(());
        };
        let bodies = capped(ALL_BODIES, self.bodies, put_bytes(&directive));
        add_to_section(&mut self.sections, actor, directive)?;
        self.bodies = bodies;
        Ok(())
    }

    /// SCHEDULE: what stands behind it are lines of the schedule. Takes no memory.
    pub fn open_schedule(&mut self)
        ensures { self.new ≡ with_schedule self.old }
    {
        self.stage = Stage::Schedule;
    }

    /// A line of the schedule: an actor, and how often it has its turn.
    pub fn add_turn(&mut self, actor: Actor, count: u32) -> Result<(), AllocError>
        ensures ok { OnOk result (self.new ≡ with_turn actor count self.old) }
        ensures err { OnErr result (self.new ≡ self.old) }
    {
        self.turns.push((actor, count)).map_err(|_| AllocError)?;
        self.steps = capped(SCHEDULE_STEPS, self.steps, count);
        Ok(())
    }

    /// END. Takes no memory.
    pub fn end(&mut self)
        ensures { self.new ≡ with_end self.old }
    {
        self.stage = Stage::Ended;
    }
}
