//! A device of bytes, by what each byte is now and what a power cut leaves of it; and what makes devices.
//!
//! - `disk`: one device.
//! - `kinds`: the kinds of devices that a member has.
//! - `rig`: what makes the devices of a group and is given them back.
#![tactic(auto)]

mod disk;
mod kinds;
mod rig;

pub use disk::Disk;
pub use kinds::Kind;
pub use qsg_num::Failed;
pub use rig::{Rig, RigError};
