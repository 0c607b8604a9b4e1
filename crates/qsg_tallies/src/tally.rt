//! What is counted of one incarnation that failed.

use qsg_num::{Incarnation, Member};

/// What is counted of an incarnation that failed.
#[derive(Clone, Copy, Debug, PartialEq, Eq)]
pub struct Tally {
    pub member: Member,
    pub incarnation: Incarnation,
    /// How many marks named it when it failed.
    pub marks: u64,
    /// Of each member, by number, how many of them its system task took off, as far as the number goes.
    pub counts: [u32; 8],
}
