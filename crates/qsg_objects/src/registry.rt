//! The objects of a group, kept by name in the order in which they were made.

ghost use Rattle.std.specs.Prelude.{◌≡◌, Some, is_some, ◌+◌, ◌≤◌, ◌<◌, ◌↔◌, IsSome, IfSome, map, [], ◌∷◌, ◌++◌, None, OnOk, OnErr, IfOk, IfErr, option_copied, length, slice_get, string_bytes};
ghost use Rattle.indexmap.specs.IndexMap.{get_by_text};

use crate::definitions::{CfstructDef, Definition, QlocalDef};
use indexmap::IndexMap;
use qsg_num::{QUEUES, STRUCTURES, StructNo};
use std::alloc::{AllocError, Global};
use std::marker::Model;
use thiserror::Error;

/// A list structure that is defined.
#[derive(Debug, Drop)]
pub struct Cfstruct {
    /// Its number, by order of definition.
    pub number: StructNo,
    pub definition: CfstructDef,
}

/// A queue that is defined.
#[derive(Debug, Drop)]
pub struct Queue {
    /// The number of its structure.
    pub structure: StructNo,
    pub definition: QlocalDef,
}

/// Why an object can't be defined.
#[derive(Clone, Copy, Debug, PartialEq, Eq, Error)]
pub enum ObjectFault {
    /// An object of that kind has the name.
    #[error("AlreadyDefined")]
    AlreadyDefined,
    /// A queue names a structure that isn't defined.
    #[error("NoSuchStructure")]
    NoSuchStructure,
    /// There are four structures, or 64 queues.
    #[error("TooMany")]
    TooMany,
}

/// Why an object wasn't defined.
#[derive(Clone, Copy, Debug, PartialEq, Eq, Error)]
pub enum ObjectError {
    #[error("{0}")]
    Fault(ObjectFault),
    #[error("no memory")]
    NoMemory,
}

/// Structures and queues by name, each kind in the order in which it was made.
#[derive(Drop)]
pub struct Objects {
    alloc: Global,
    structures: IndexMap<String, Cfstruct>,
    queues: IndexMap<String, Queue>,
}

impl Model for Objects {
    ghost use Rattle.std.specs.Prelude.{map};
    ghost use Rattle.qsg_objects.specs.Registry.{Registry, IsKept};

    ghost Value = { Registry };

    ghost view = { λ o. record { structures = map (λ e. e.1) o.structures.entries; queues = map (λ e. e.1) o.queues.entries } };

    ghost invariant = { λ o. IsKept o.structures.entries o.queues.entries };
}

impl Objects {
    ghost use Rattle.qsg_objects.specs.Registry.{nothing_defined, queue_named, structure_called, structure_numbered, number_named, defined, refusal, Says, IsPlaced, with_structure, with_queue};
    ghost use Rattle.qsg_num.specs.Seats.{structure_number};

    /// No objects.
    pub fn new(alloc: Global) -> Objects
        ensures { result ≡ nothing_defined }
    {
        Objects {
            alloc,
            structures: IndexMap::new(alloc),
            queues: IndexMap::new(alloc),
        }
    }

    /// The queue of a name; None exactly where none has it.
    pub fn queue(&self, name: &str) -> Option<&Queue>
        ensures value { option_copied result ≡ queue_named name.now self.now }
        ensures placed { IfSome result (λ q. IsPlaced self.now.structures q.now) }
        ensures counted { IfSome result (λ q. structure_number q.now.structure ≤ length self.now.structures) }
    {
        self.queues.get(name)
    }

    /// The structure of a number; None exactly where fewer were defined.
    pub fn structure(&self, no: StructNo) -> Option<&Cfstruct>
        ensures value { option_copied result ≡ structure_numbered no self.now }
        ensures found { IsSome result ↔ (structure_number no ≤ length self.now.structures) }
        ensures number { IfSome result (λ s. s.now.number ≡ no) }
    {
        value_at(&self.structures, no.index())
    }

    /// The number of the structure of a name; None exactly where none has it.
    pub fn structure_named(&self, name: &str) -> Option<StructNo>
        ensures value { result ≡ number_named name.now self.now }
        ensures counted { IfSome result (λ n. structure_number n ≤ length self.now.structures) }
    {
        match self.structure_called(name) {
            Some(structure) => Some(structure.number),
            None => None,
        }
    }

    /// How many structures were defined.
    pub fn structure_count(&self) -> usize
        ensures value { result ≡ length self.now.structures }
        ensures bound { result ≤ STRUCTURES }
    {
        self.structures.len()
    }

    /// How many queues were defined.
    pub fn queue_count(&self) -> usize
        ensures value { result ≡ length self.now.queues }
        ensures bound { result ≤ QUEUES }
    {
        self.queues.len()
    }

    /// The queue at a place in the order of definition, from 0; None exactly where fewer were defined.
    pub fn queue_at(&self, at: usize) -> Option<&Queue>
        ensures { option_copied result ≡ slice_get self.now.queues at }
    {
        value_at(&self.queues, at)
    }

    /// Defines an object, after those that are defined. A refusal changes nothing.
    pub fn define(&mut self, definition: Definition) -> Result<(), ObjectError>
        ensures ok { OnOk result (self.new ≡ defined definition self.old) }
        ensures accepted { OnOk result (refusal definition self.old ≡ None) }
        ensures refused { IfErr result (λ e. Says e (refusal definition self.old)) }
        ensures unchanged { OnErr result (self.new ≡ self.old) }
    {
        match definition {
            Definition::Cfstruct(definition) => self.define_structure(definition),
            Definition::Qlocal(definition) => self.define_queue(definition),
        }
    }

    /// The structure of a name.
    fn structure_called(&self, name: &str) -> Option<&Cfstruct>
        ensures value { option_copied result ≡ structure_called name.now self.now }
        ensures counted { IfSome result (λ s. structure_number s.now.number ≤ length self.now.structures) }
    {
        self.structures.get(name)
    }

    fn define_structure(&mut self, definition: CfstructDef) -> Result<(), ObjectError>
        ensures ok { OnOk result (self.new ≡ defined (Definition.Cfstruct definition) self.old) }
        ensures accepted { OnOk result (refusal (Definition.Cfstruct definition) self.old ≡ None) }
        ensures refused { IfErr result (λ e. Says e (refusal (Definition.Cfstruct definition) self.old)) }
        ensures unchanged { OnErr result (self.new ≡ self.old) }
    {
        if self.structure_named(definition.name.as_str()).is_some() {
            return Err(ObjectError::Fault(ObjectFault::AlreadyDefined));
        }
        match StructNo::new(self.structure_count() as u8 + 1) {
            Some(number) => self.push_structure(number, definition),
            None => Err(ObjectError::Fault(ObjectFault::TooMany)),
        }
    }

    fn define_queue(&mut self, definition: QlocalDef) -> Result<(), ObjectError>
        ensures ok { OnOk result (self.new ≡ defined (Definition.Qlocal definition) self.old) }
        ensures accepted { OnOk result (refusal (Definition.Qlocal definition) self.old ≡ None) }
        ensures refused { IfErr result (λ e. Says e (refusal (Definition.Qlocal definition) self.old)) }
        ensures unchanged { OnErr result (self.new ≡ self.old) }
    {
        if self.is_queue(definition.name.as_str()) {
            return Err(ObjectError::Fault(ObjectFault::AlreadyDefined));
        }
        match self.structure_named(definition.cfstruct.as_str()) {
            None => Err(ObjectError::Fault(ObjectFault::NoSuchStructure)),
            Some(_) if self.queue_count() >= QUEUES => {
                Err(ObjectError::Fault(ObjectFault::TooMany))
            }
            Some(structure) => self.push_queue(structure, definition),
        }
    }

    /// Whether a queue has the name.
    fn is_queue(&self, name: &str) -> bool
        ensures { result ≡ is_some (queue_named name.now self.now) }
    {
        self.queue(name).is_some()
    }

    /// Adds a structure whose name is new, with its number.
    fn push_structure(
        &mut self,
        number: StructNo,
        definition: CfstructDef,
    ) -> Result<(), ObjectError>
        requires fresh { number_named definition.name self.old ≡ None }
        requires next { structure_number number ≡ length self.old.structures + 1 }
        ensures ok { OnOk result (self.new ≡ with_structure (Some number) definition self.old) }
        ensures refused { IfErr result (λ e. e ≡ ObjectError.NoMemory) }
        ensures unchanged { OnErr result (self.new ≡ self.old) }
    {
        let key = copied(self.alloc, definition.name.as_str())?;
        add(&mut self.structures, key, Cfstruct { number, definition })
    }

    /// Adds a queue whose name is new, on its structure.
    fn push_queue(&mut self, structure: StructNo, definition: QlocalDef) -> Result<(), ObjectError>
        requires fresh { queue_named definition.name self.old ≡ None }
        requires placed { number_named definition.cfstruct self.old ≡ Some structure }
        requires room { length self.old.queues < 64 }
        ensures ok { OnOk result (self.new ≡ with_queue (Some structure) definition self.old) }
        ensures refused { IfErr result (λ e. e ≡ ObjectError.NoMemory) }
        ensures unchanged { OnErr result (self.new ≡ self.old) }
    {
        let key = copied(self.alloc, definition.name.as_str())?;
        add(
            &mut self.queues,
            key,
            Queue {
                structure,
                definition,
            },
        )
    }
}

/// A copy of a name.
fn copied(alloc: Global, name: &str) -> Result<String, ObjectError>
    ensures ok { IfOk result (λ key. string_bytes key ≡ name.now) }
    ensures refused { IfErr result (λ e. e ≡ ObjectError.NoMemory) }
{
    String::from_str(alloc, name).map_err(|_| ObjectError::NoMemory)
}

/// The value at a place of a map.
fn value_at<V>(all: &IndexMap<String, V>, at: usize) -> Option<&V>
    ensures value { option_copied result ≡ slice_get (map (λ e. e.1) all.now.entries) at }
    ensures found { IsSome result ↔ (at < length all.now.entries) }
{
    match all.get_index(at) {
        Some((_, value)) => Some(value),
        None => None,
    }
}

/// Adds a value under a key that isn't there.
fn add<V: Drop>(all: &mut IndexMap<String, V>, key: String, value: V) -> Result<(), ObjectError>
    requires { get_by_text all.old (string_bytes key) ≡ None }
    ensures ok { OnOk result (all.new.entries ≡ all.old.entries ++ (key, value) ∷ []) }
    ensures refused { IfErr result (λ e. e ≡ ObjectError.NoMemory) }
    ensures unchanged { OnErr result (all.new.entries ≡ all.old.entries) }
{
    match all.insert(key, value) {
        Ok(_) => Ok(()),
        Err(_) => Err(ObjectError::NoMemory),
    }
}

#[cfg(test)]
mod tests {
    use super::*;
    use qsg_num::{Bytes, Delivery, Name, Priority, QueueName, Rules};
    use std::test::Fail;

    /// The structure of a name, with the defaults of DEFINE.
    fn structure(alloc: Global, name: &str) -> Result<Definition, AllocError> {
        Ok(Definition::Cfstruct(CfstructDef {
            name: Name::from_str(alloc, name)?,
            dsgroup: Bytes::from_slice(alloc, b"A.*")?,
            recover: true,
            rules: Rules {
                threshold: [70, 80, 90],
                size_k: [32, 4, 0],
            },
            dsblock: 262_144,
            dsbufs: None,
            dsexpand: None,
            descr: None,
        }))
    }

    /// The queue of a name on a structure, with the defaults of DEFINE.
    fn queue(alloc: Global, name: &str, cfstruct: &str) -> Result<Definition, Fail> {
        Ok(Definition::Qlocal(QlocalDef {
            name: QueueName::from_name(Name::from_str(alloc, name)?)?,
            cfstruct: Name::from_str(alloc, cfstruct)?,
            put: true,
            get: true,
            defprty: Priority::Zero,
            defpsist: false,
            msgdlvsq: Delivery::Priority,
            maxdepth: 999_999_999,
            maxmsgl: 4_194_304,
            descr: None,
        }))
    }

    /// How a definition ends.
    fn ending(objects: &mut Objects, definition: Definition) -> Option<ObjectFault> {
        match objects.define(definition) {
            Err(ObjectError::Fault(fault)) => Some(fault),
            _ => None,
        }
    }

    /// The numbers of the structure of a name and of the structure of a queue.
    fn numbers(
        objects: &Objects,
        structure: &str,
        queue: &str,
    ) -> (Option<StructNo>, Option<StructNo>) {
        (
            objects.structure_named(structure),
            objects.queue(queue).map(|q| q.structure),
        )
    }

    /// The number of the structure of a number, the counts, and whether there is a queue at a place.
    fn counts(
        objects: &Objects,
        no: StructNo,
        at: usize,
    ) -> (Option<StructNo>, usize, usize, bool) {
        (
            objects.structure(no).map(|s| s.number),
            objects.structure_count(),
            objects.queue_count(),
            objects.queue_at(at).is_some(),
        )
    }

    #[test]
    fn definitions(rt: HostRuntime) -> Result<(), Fail> {
        let alloc = rt.alloc();
        let mut objects = Objects::new(alloc);
        for (name, cfstruct, fault) in [
            ("", "APP1", None),
            ("Q1", "APP9", Some(ObjectFault::NoSuchStructure)),
            ("", "APP2", None),
            ("", "APP1", Some(ObjectFault::AlreadyDefined)),
            ("", "APP3", None),
            ("Q1", "APP2", None),
            // AlreadyDefined stands before NoSuchStructure,
            ("Q1", "APP9", Some(ObjectFault::AlreadyDefined)),
            ("", "APP4", None),
            // and before TooMany.
            ("", "APP4", Some(ObjectFault::AlreadyDefined)),
            ("", "APP5", Some(ObjectFault::TooMany)),
        ] {
            let definition = if name.is_empty() {
                structure(alloc, cfstruct)?
            } else {
                queue(alloc, name, cfstruct)?
            };
            assert_eq!(rt; ending(&mut objects, definition), fault);
        }
        assert_eq!(rt;
            numbers(&objects, "APP3", "Q1"),
            (Some(StructNo::Three), Some(StructNo::Two))
        );
        assert_eq!(rt; numbers(&objects, "app3", "q1"), (None, None));
        assert_eq!(rt;
            counts(&objects, StructNo::Four, 0),
            (Some(StructNo::Four), 4, 1, true)
        );
        Ok(())
    }
}
