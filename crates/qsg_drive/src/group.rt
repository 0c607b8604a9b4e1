//! A group whose actors make steps.

ghost use Rattle.std.specs.Prelude.{ℕ, IfOk};
ghost use Rattle.qsg_step.specs.States.{State};
ghost use Rattle.qsg_step.specs.Steps.{IsStep};
ghost use Rattle.qsg_drive.specs.Paces.{IsPaced};

use qsg_num::Actor;
use qsg_step::Step;
use std::alloc::{AllocError, Global};

/// A group whose actors make steps.
pub trait Group {
    /// What contracts see of it.
    ghost state: { Self → State };

    /// A number that every step that moves lowers.
    ghost left: { Self → ℕ };

    /// Makes the next step of an actor. Only want of memory is an error.
    fn step(&mut self, alloc: Global, actor: Actor) -> Result<Step, AllocError>
        ensures next { IfOk result (λ step. IsStep actor (state self.old) step (state self.new)) }
        ensures pace { IfOk result (λ step. IsPaced step (left self.old) (left self.new)) };
}
