//! The plan of a script as far as it was read: look-ups in it, additions to it, and the plan at its end.
//!
//! - `stages`: where in a script its next statement stands.
//! - `drafts`: the plan as read so far, and its look-ups.
//! - `additions`: what each statement adds to it.
//! - `sizes`: the sizes of structures, and the bytes of all devices.
//! - `sections`: the sections of a script, in order of their actors.
//! - `plans`: the plan at the end of a script.
//! - `laws`: what holds of the sections of every draft.
#![tactic(auto)]

mod additions;
mod drafts;
mod laws;
mod plans;
mod sections;
mod sizes;
mod stages;
#[cfg(test)]
mod tests;

pub use drafts::Draft;
pub use laws::sections_stay_in_order;
pub use stages::Stage;
