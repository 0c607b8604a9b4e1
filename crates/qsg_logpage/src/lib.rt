//! The pages of a log. Each is written behind a closed gate and opened once its body is safe, so after a power
//! cut it is whole or absent. A log is a ring: page n of a log of P pages stands at position `n mod P`, with lap
//! `n div P` in its body.
//!
//! - `writer`: writes runs of pages, step by step, within what is reserved.
//! - `read`: reads one page.
//! - `power`: what a power cut leaves of a log.
//! - `step`: the steps of a page.
//! - `gate`, `lap`: the gate of a page and the lap in its body.
//! - `table`: the pages that are reserved.
//! - `laws`: what holds of a log and its writer, for all of them.
#![tactic(auto)]

mod gate;
mod lap;
mod laws;
mod power;
mod read;
mod step;
mod table;
mod writer;

pub use laws::{keep_may_rise, new_log_is_empty, pages_end_at_the_next};
pub use power::power_cut;
pub use read::{page_room, read_page};
pub use step::{InHand, LogStep, Phase};
pub use table::{RESERVATIONS, Reservation};
pub use writer::{LogWriter, NoLog};

#[cfg(test)]
mod tests;
