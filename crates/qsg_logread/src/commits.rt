//! The units whose commits were read.

ghost use Rattle.std.specs.Prelude.{◌≡◌, ◌+◌, ◌-◌, ◌<◌, ◌≤◌, [], Option, None, Some, Bool, OnOk, OnErr, IsOk, length, drop, map};
ghost use Rattle.std.specs.Hash as fed;
ghost use Rattle.std.specs.Cmp.Rules.{comparing, hashing};
ghost use Rattle.std.proofs.Common.{rules};
ghost use Rattle.indexmap.specs.IndexMap.{spare};
ghost use Rattle.qsg_num.specs.Seats.{member_number};
ghost use Rattle.qsg_num.specs.Ids.{same_unit};
ghost use Rattle.qsg_logread.specs.Fed.{is_committed, structures_of, with_commit, with_record, with_records};
ghost use Rattle.qsg_logread.specs.Table.{commits_in};
ghost use Rattle.qsg_logread.specs.declared.commits.UnitKey.{UnitKey};

use indexmap::IndexMap;
use qsg_logrec::{LogRecord, StructSet};
use qsg_num::UnitName;
use std::alloc::{AllocError, Global};
use std::hash::{Hash, Hasher};
use std::marker::Model;

/// The name of a unit, by which its commit is found.
#[derive(Clone, Copy, Debug)]
pub struct UnitKey {
    pub unit: UnitName,
}

impl PartialEq for UnitKey {
    ghost eq = { λ a b. same_unit a.unit b.unit };

    ghost laws = { Prim.search (comparing, rules) };

    fn eq(&self, other: &UnitKey) -> bool {
        self.unit.member.get() == other.unit.member.get()
            && self.unit.incarnation.number == other.unit.incarnation.number
            && self.unit.seq == other.unit.seq
    }
}

impl Eq for UnitKey {
    ghost laws = { Prim.search (comparing, rules) };
}

impl Hash for UnitKey {
    ghost use Rattle.std.specs.Prelude.{◌++◌};

    ghost hash_input = { λ k. fed.u8 (member_number k.unit.member) ++ fed.u32 k.unit.incarnation.number ++ fed.u32 k.unit.seq };

    ghost respects_eq = { Prim.search (hashing, rules) };

    fn hash<H: Hasher>(&self, state: &mut H) {
        self.unit.member.get().hash(state);
        self.unit.incarnation.number.hash(state);
        self.unit.seq.hash(state);
    }
}

/// The units that are committed, each with the structures that its commit named. A look-up takes the same time
/// however many there are.
#[derive(Drop)]
pub struct Commits {
    units: IndexMap<UnitKey, Option<StructSet>>,
}

impl Model for Commits {
    ghost use Rattle.std.specs.Prelude.{List};
    ghost use Rattle.qsg_logread.specs.Fed.{Commit};

    ghost Value = { List Commit };

    ghost use Rattle.qsg_logread.specs.Table.{commits_in};

    ghost view = { λ c. commits_in c.units.entries };
}

/// The same structures again, if there are some.
fn copied(set: &Option<StructSet>) -> Option<StructSet>
    ensures { result ≡ set.now }
{
    match set {
        Some(set) => StructSet::new(set.get()),
        None => None,
    }
}

/// Notes the commit of a unit.
fn note(
    units: &mut IndexMap<UnitKey, Option<StructSet>>,
    unit: UnitName,
    set: Option<StructSet>,
) -> Result<(), AllocError>
    ensures noted { OnOk result (commits_in units.new.entries ≡ with_commit (commits_in units.old.entries) (record { unit = unit; structures = set })) }
    ensures room { spare units.old ≤ spare units.new + 1 }
    ensures succeeds { 0 < spare units.old → IsOk result }
{
    let key = UnitKey { unit };
    if set.is_none() && units.contains_key(&key) {
        return Ok(());
    }
    units.insert(key, set)?;
    Ok(())
}

/// Notes what a record says of a commit.
fn note_record(
    units: &mut IndexMap<UnitKey, Option<StructSet>>,
    entry: &LogRecord,
) -> Result<(), AllocError>
    ensures noted { OnOk result (commits_in units.new.entries ≡ with_record (commits_in units.old.entries) entry.now) }
    ensures room { spare units.old ≤ spare units.new + 1 }
    ensures succeeds { 0 < spare units.old → IsOk result }
{
    match entry {
        LogRecord::Commit(unit) => note(units, *unit, None),
        LogRecord::CommitIn(unit, set) => note(units, *unit, StructSet::new(set.get())),
        _ => Ok(()),
    }
}

/// Notes what records say of commits, all or none.
fn note_all(
    units: &mut IndexMap<UnitKey, Option<StructSet>>,
    records: &[LogRecord],
) -> Result<(), AllocError>
    ensures noted { OnOk result (commits_in units.new.entries ≡ with_records (commits_in units.old.entries) records.now) }
    ensures refused { OnErr result (units.new.entries ≡ units.old.entries) }
{
    units.reserve(records.len())?;
    for entry in records {
        note_record(units, entry)?;
    }
    Ok(())
}

impl Commits {
    /// No unit is committed. Takes no memory.
    pub fn new(alloc: Global) -> Commits
        ensures { result ≡ [] }
    {
        Commits {
            units: IndexMap::new(alloc),
        }
    }

    /// Notes what records say of commits, all or none.
    pub fn add(&mut self, records: &[LogRecord]) -> Result<(), AllocError>
        ensures noted { OnOk result (self.new ≡ with_records self.old records.now) }
        ensures refused { OnErr result (self.new ≡ self.old) }
    {
        note_all(&mut self.units, records)
    }

    /// Whether a unit is committed.
    pub fn contains(&self, unit: UnitName) -> bool
        ensures { result ≡ is_committed unit self.now }
    {
        self.units.contains_key(&UnitKey { unit })
    }

    /// The structures that a unit's commit named, if it is committed and named some.
    pub fn structures(&self, unit: UnitName) -> Option<StructSet>
        ensures { result ≡ structures_of unit self.now }
    {
        match self.units.get(&UnitKey { unit }) {
            Some(set) => copied(set),
            None => None,
        }
    }
}
