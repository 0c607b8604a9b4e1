//! The steps of a page.

use qsg_num::PageNo;

/// What a step of the writer has done.
#[derive(Clone, Copy, Debug, PartialEq, Eq)]
pub enum LogStep {
    /// The gate at the page's position is 0. Pages of lap 0 have neither this step nor the next.
    GateShut,
    /// That is safe.
    ShutSafe,
    /// The body is written, with the page's lap.
    BodyWritten,
    /// It is safe.
    BodySafe,
    /// The gate is written as 1.
    GateWritten,
    /// The whole page is safe.
    PageSafe(PageNo),
}

/// How far the page in hand is: what its last step has done.
#[derive(Clone, Copy, Debug, PartialEq, Eq)]
pub enum Phase {
    Fresh,
    GateShut,
    ShutSafe,
    BodyWritten,
    BodySafe,
    GateWritten,
}

/// The page that is being written.
#[derive(Clone, Copy, Debug, PartialEq, Eq)]
pub struct InHand {
    pub page: PageNo,
    /// Whether it is the last of its run.
    pub last: bool,
    /// Whether its body was made safe in this run.
    pub body_safe: bool,
}
