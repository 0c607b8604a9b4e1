//! A GET, in three steps: the check, which reserves pages of the log; the connection; and the entry.
//!
//! - `checking`: why a get is refused before it looks at a structure.
//! - `laws`: each step is a change of the machine, or leaves it as it is; what a refusal leaves.
//! - `phases`: how far a get has come.
//! - `steps`: what each step does to the parts of the group.
//! - `work`: a get in progress.
//!
//! What every step makes of the work and of the parts is the function `next_get` of `specs/Steps.antt`.
#![tactic(auto)]

mod checking;
mod laws;
mod phases;
mod steps;
#[cfg(test)]
mod tests;
mod work;

pub use checking::{Terms, check};
pub use laws::{
    a_get_that_goes_on_may_go_on, a_refused_get_leaves_its_unit, a_step_of_a_get_is_a_change,
    no_message_comes_only_where_none_waits,
};
pub use phases::Phase;
pub use work::GetWork;
