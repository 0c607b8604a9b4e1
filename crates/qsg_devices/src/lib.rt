//! The devices of a group: of each member its log, and a data set for each structure.
//!
//! - `shapes`: the data sets that a plan asks for.
//! - `making`: the devices of the members, made by a rig.
//! - `returning`: devices that are given back to a rig.
#![tactic(auto)]

mod making;
mod returning;
mod shapes;

pub use making::{Devices, MakeFault, new_devices};
pub use returning::give_back;
pub use shapes::{Shape, shapes_of};
