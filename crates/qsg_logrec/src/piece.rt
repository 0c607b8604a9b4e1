//! The parts of records that stand on pages.

use qsg_num::Bytes;

/// Which part of its record a piece is.
#[derive(Clone, Copy, Debug, PartialEq, Eq)]
pub enum Part {
    /// The whole record.
    Only,
    First,
    Middle,
    Last,
}

/// A part of a record that stands on one page.
#[derive(Debug, Drop)]
pub struct Piece {
    pub part: Part,
    /// At least one byte, where it was read from a page.
    pub bytes: Bytes,
}
