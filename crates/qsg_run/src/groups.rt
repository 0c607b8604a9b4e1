//! A group as the drive steps it.

ghost use Rattle.qsg_pace.specs.Pace.{left};

use qsg_disk::Disk;
use qsg_drive::Group;
use qsg_num::Actor;
use qsg_pace::each_step_that_moves_leaves_less;
use qsg_step::Step;
use qsg_sysplex::Sysplex;
use std::alloc::{AllocError, Global};

/// A group that the drive steps.
#[derive(Drop)]
pub struct Driven<D: Disk> {
    pub sysplex: Sysplex<D>,
}

impl<D: Disk + Drop> Group for Driven<D> {
    ghost state = { λ g. g.sysplex };

    ghost left = { λ g. left g.sysplex };

    fn step(&mut self, alloc: Global, actor: Actor) -> Result<Step, AllocError> {
        self.sysplex.kept();
        each_step_that_moves_leaves_less();
        self.sysplex.step(alloc, actor)
    }
}
