//! Devices in memory, for tests and for runs without files.
//!
//! - `choose`: the value that a power cut gives to a byte in doubt.
//! - `bits`, `doubt`, `cells`: bytes with their old values and marks of doubt.
//! - `mem`: a device of these.
//! - `places`, `rig`: what makes such devices and keeps those that were given back.
//! - `blind`: devices that tell nothing, and a rig that makes them.
#![tactic(auto)]

mod bits;
mod blind;
mod cells;
mod choose;
mod doubt;
mod mem;
mod places;
mod rig;

pub use blind::{BlindDisk, BlindRig};
pub use mem::MemDisk;
pub use rig::MemRig;

#[cfg(test)]
mod tests;
