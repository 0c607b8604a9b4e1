//! The list structure of a coupling facility, as a plain list of entries in order of id.
//!
//! - `parts`: what entries are made of, and what commands ask and answer.
//! - `facility`: the structure and its commands.
//! - `search`: look-ups in a list of entries.
//! - `change`: changes of a list of entries.
//! - `laws`: what a change of the entries leaves under each id.
//!
//! A contract sees a structure as the record `ListStructure` of `specs/Structures.antt`. Its entries change in
//! two ways only: one is added at the end, or the one of an id is revised.
#![tactic(auto)]

mod change;
mod facility;
mod laws;
mod parts;
mod search;
#[cfg(test)]
mod tests;

pub use facility::Structure;
pub use laws::{
    appended_is_found, appended_is_used, appended_leaves_others, entry_has_its_id,
    first_is_the_least_that_waits, found_is_its_entry, found_is_least, none_above_the_last,
    order_is_kept, revised_is_found, revised_leaves_others, revisions_keep_ids,
};
pub use parts::{
    Connection, Entry, Head, Lost, Mark, NotActive, Place, RecoverFault, Seen, Selector, Settled,
    State, WriteRefused, WriteWhy,
};
