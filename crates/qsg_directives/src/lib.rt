//! What a directive asks of its task.
//!
//! - `asking`: the request of a directive.
//! - `bodies`: the body of a put, by its bytes or by its size.
#![tactic(auto)]

mod asking;
mod bodies;
#[cfg(test)]
mod tests;

pub use asking::request_of;
pub use bodies::body_of;
