//! Units of work, the history of a group, and what a history holds.
//!
//! - `history`: operations, units and items.
//! - `recorded`: a history that is kept, with room for items to come.
//! - `messages`: a list of messages.
//! - `holding`: the messages that a history holds, as a list; `ends` counts losses and purges for it.
//! - `laws`: what holds of the definitions for all histories.
//!
//! The definitions stand in `specs/History.antt`: `held`, the messages that a history holds, and `Legal`,
//! which histories can be; and in `specs/Past.antt`: `held_at`, what it holds under one key, and `Follows`, which
//! units may come next.
#![tactic(auto)]

mod ends;
mod history;
mod holding;
mod laws;
mod messages;
mod recorded;

pub use history::{Item, Op, Ops};
pub use holding::held;
pub use laws::{
    a_get_takes_what_was_put, a_put_is_held, a_unit_that_follows_leaves_a_legal_history,
    each_item_acts_on_what_was_held, each_item_acts_on_what_was_left, lists_and_keys_agree,
    losses_and_purges_are_counted, losses_and_purges_leave_a_legal_history,
    losses_keep_what_is_persistent, purges_keep_nothing, what_is_held_was_put,
    what_was_got_is_not_held, what_was_not_put_is_not_held,
};
pub use messages::Messages;
pub use recorded::History;

#[cfg(test)]
mod tests;
