//! Where in a script its next statement stands.

use qsg_num::Actor;

/// Where in a script its next statement stands.
#[derive(Clone, Copy, Debug, PartialEq, Eq)]
pub enum Stage {
    /// Before GROUP.
    Start,
    /// Behind GROUP, among MEMBER, DEFINE and FACILITY.
    Definitions,
    /// In the section of a task or of the operator.
    Section(Actor),
    /// In the schedule.
    Schedule,
    /// Behind END.
    Ended,
}
