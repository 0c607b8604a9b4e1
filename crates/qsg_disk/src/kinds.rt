//! The kinds of devices.

use qsg_num::StructNo;

/// What a device of a member is: its log, or its data set for the offloaded bodies of a structure.
#[derive(Clone, Copy, Debug, PartialEq, Eq)]
pub enum Kind {
    Log,
    DataSet(StructNo),
}
