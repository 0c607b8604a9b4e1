//! How a step of an actor ended.

use qsg_requests::Cause;

/// How a step of an actor ended.
#[derive(Clone, Copy, Debug, PartialEq, Eq)]
pub enum Step {
    /// It was made.
    Moved,
    /// It wasn't made, for this cause. Nothing changed.
    Waits(Cause),
    /// The actor has no directive left. Nothing changed.
    Done,
}
