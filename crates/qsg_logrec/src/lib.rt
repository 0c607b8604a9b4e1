//! Records of a log, and the pages on which their pieces stand.
//!
//! - `sets`: sets of structures.
//! - `record`: what a record is.
//! - `lists`: lists of records, of spellings and of pieces.
//! - `writing`, `reading`: the one spelling of a record, both ways.
//! - `piece`: the parts of records that stand on pages.
//! - `cutting`: how a run of records is cut into pages.
//! - `page`: the pieces of a page.
//! - `fault`: why bytes aren't read.
#![tactic(auto)]

mod cutting;
mod fault;
mod lists;
mod page;
mod piece;
mod reading;
mod record;
mod sets;
mod writing;

pub use cutting::{cut, the_last_record_ends_on_the_last_page};
pub use fault::{PageFault, RecordFault};
pub use lists::{Pieces, Records, Spellings};
pub use page::decode_page;
pub use piece::{Part, Piece};
pub use reading::decode;
pub use record::{LogMark, LogRecord};
pub use sets::{StructSet, sets_are_rising};
pub use writing::{encode, push_record};

#[cfg(test)]
mod tests;
