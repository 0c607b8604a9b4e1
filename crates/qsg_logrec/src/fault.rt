//! Why bytes aren't read.

/// Why a record wasn't read.
#[derive(Clone, Copy, Debug, PartialEq, Eq)]
pub enum RecordFault {
    /// The input isn't the spelling of one record. Its first `at` bytes begin some spelling, and no more
    /// of them do.
    BadRecord { at: usize },
    /// Memory ran out.
    NoMemory,
}

/// Why the pieces of a page weren't read.
#[derive(Clone, Copy, Debug, PartialEq, Eq)]
pub enum PageFault {
    /// The bytes aren't the body of a page. The first `at` of them begin some body, and no more of them do.
    BadPage { at: usize },
    /// Memory ran out.
    NoMemory,
}
