//! Who has the next turn: by the lines of a schedule and then in turn, or drawn from a seed.
//!
//! - `chooser`: the two choosers and their picks.
//! - `turns`: what is left of a schedule.
//! - `laws`: the picks of a whole run.
#![tactic(auto)]

mod chooser;
mod laws;
mod turns;

pub use chooser::{Chooser, Pick};
pub use laws::{first_draw, picks_of_a_schedule};
