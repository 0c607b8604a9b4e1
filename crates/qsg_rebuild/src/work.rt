//! A rebuild in progress.

ghost use Rattle.std.specs.Prelude.{◌≡◌, true, IsErrOf};
ghost use Rattle.qsg_parts.specs.Owned.{owned};
ghost use Rattle.qsg_rebuild.specs.declared.phases.Phase.TheVariants as phases;
ghost use Rattle.qsg_rebuild.specs.declared.phases.RebuildTurn.TheVariants as turns;
ghost use Rattle.qsg_rebuild.specs.declared.phases.RebuildError.TheVariants as errors;

use crate::phases::{Phase, RebuildError, RebuildTurn};
use crate::steps::{claim, load, loaded_phase, loading, shutting};
use qsg_dataset::LoadError;
use qsg_disk::Disk;
use qsg_lists::Connection;
use qsg_num::{EntryId, Member, StructNo};
use qsg_parts::Parts;
use std::alloc::Global;

/// The rebuild of the map of a member's data set for a structure, until a step ends it. The member is down.
#[derive(Clone, Copy, Debug, PartialEq, Eq)]
pub struct RebuildWork {
    pub member: Member,
    pub structure: StructNo,
    pub phase: Phase,
}

impl RebuildWork {
    ghost use Rattle.qsg_rebuild.specs.Needs.{MayStep, takes_memory};
    ghost use Rattle.qsg_rebuild.specs.Steps.{new_work, IsSamePlace, NextRebuild, after_connect, after_scan, Loads, NextAt};

    /// The rebuild of a map, before its first step.
    pub fn begin(member: Member, structure: StructNo) -> RebuildWork
        ensures { result ≡ new_work member structure }
    {
        RebuildWork {
            member,
            structure,
            phase: Phase::Connect,
        }
    }

    /// Makes the next step. A step that ends the work, or that fails, leaves it as it was; it isn't stepped again. Only
    /// the step that reads the header takes memory; where it lacks memory it changes nothing.
    pub fn step<D: Disk>(
        &mut self,
        alloc: Global,
        parts: &mut Parts<D>,
    ) -> Result<RebuildTurn, RebuildError>
        requires may { MayStep self.old (owned parts.old) }
        ensures next { NextRebuild self.old (owned parts.old) result self.new (owned parts.new) }
        ensures place { IsSamePlace self.old self.new }
        ensures ready { MayStep self.new (owned parts.new) }
        ensures memory { IsErrOf result errors.NoMemory → takes_memory self.old ≡ true }
        ensures unmade { IsErrOf result errors.NoMemory → (self.new ≡ self.old) × (owned parts.new ≡ owned parts.old) }
    {
        self.make(alloc, parts)
    }

    /// The same, by what it does.
    fn make<D: Disk>(
        &mut self,
        alloc: Global,
        parts: &mut Parts<D>,
    ) -> Result<RebuildTurn, RebuildError>
        requires may { MayStep self.old (owned parts.old) }
        ensures next { NextRebuild self.old (owned parts.old) result self.new (owned parts.new) }
    {
        match self.phase {
            Phase::Connect => Ok(self.connect(parts)),
            Phase::Load { epoch, is_served } => self.load(alloc, parts, epoch, is_served),
            Phase::Scan {
                epoch,
                after,
                is_open,
            } => Ok(self.scan(parts, epoch, after, is_open)),
            Phase::Shut => self.shut(parts),
            Phase::Sync => self.sync(parts),
        }
    }

    /// Connects to the structure. A map that a START of before has left goes.
    fn connect<D: Disk>(&mut self, parts: &mut Parts<D>) -> RebuildTurn
        requires may { MayStep self.old (owned parts.old) }
        ensures next { record { turn = result; work = self.new; parts = owned parts.new } ≡ after_connect self.old (owned parts.old) }
    {
        parts
            .datasets
            .set_mut(self.member, self.structure)
            .drop_map();
        self.phase = loading(parts.structures.connect(self.structure));
        RebuildTurn::More
    }

    /// Reads the header of the data set.
    fn load<D: Disk>(
        &mut self,
        alloc: Global,
        parts: &mut Parts<D>,
        epoch: u32,
        is_served: bool,
    ) -> Result<RebuildTurn, RebuildError>
        requires may { MayStep self.old (owned parts.old) }
        ensures next { Loads epoch is_served self.old (owned parts.old) result self.new (owned parts.new) }
    {
        let set = parts.datasets.set_mut(self.member, self.structure);
        match load(alloc, set, epoch, is_served) {
            Ok(found) => {
                self.phase = loaded_phase(is_served, epoch, found);
                Ok(RebuildTurn::More)
            }
            Err(LoadError::NoMemory) => Err(RebuildError::NoMemory),
            Err(LoadError::Failed) => Err(RebuildError::Failed),
        }
    }

    /// Looks at the next entry. Where the structure serves its users no more, the map goes.
    fn scan<D: Disk>(
        &mut self,
        parts: &mut Parts<D>,
        epoch: u32,
        after: EntryId,
        is_open: bool,
    ) -> RebuildTurn
        requires may { MayStep self.old (owned parts.old) }
        ensures next { record { turn = result; work = self.new; parts = owned parts.new } ≡ after_scan epoch after is_open self.old (owned parts.old) }
    {
        let connection = Connection {
            structure: self.structure,
            epoch,
        };
        match parts.structures.entry_after(connection, after) {
            Ok(Some(entry)) => {
                claim(
                    &mut parts.datasets,
                    self.member,
                    self.structure,
                    &entry.place,
                );
                self.phase = Phase::Scan {
                    epoch,
                    after: entry.id,
                    is_open,
                };
                RebuildTurn::More
            }
            Ok(None) => {
                self.phase = shutting(is_open);
                RebuildTurn::More
            }
            Err(_) => {
                parts
                    .datasets
                    .set_mut(self.member, self.structure)
                    .drop_map();
                self.phase = shutting(is_open);
                RebuildTurn::More
            }
        }
    }

    /// Writes the gate as 0.
    fn shut<D: Disk>(&mut self, parts: &mut Parts<D>) -> Result<RebuildTurn, RebuildError>
        requires may { MayStep self.old (owned parts.old) }
        ensures next { NextAt phases.Shut self.old (owned parts.old) result self.new (owned parts.new) }
    {
        let set = parts.datasets.set_mut(self.member, self.structure);
        match set.shut_step(1) {
            Ok(()) => {
                self.phase = Phase::Sync;
                Ok(RebuildTurn::More)
            }
            Err(_) => Err(RebuildError::Failed),
        }
    }

    /// Makes the gate safe, which reads 0.
    fn sync<D: Disk>(&mut self, parts: &mut Parts<D>) -> Result<RebuildTurn, RebuildError>
        requires may { MayStep self.old (owned parts.old) }
        ensures next { NextAt phases.Sync self.old (owned parts.old) result self.new (owned parts.new) }
    {
        let set = parts.datasets.set_mut(self.member, self.structure);
        match set.shut_step(2) {
            Ok(()) => Ok(RebuildTurn::Done),
            Err(_) => Err(RebuildError::Failed),
        }
    }
}
