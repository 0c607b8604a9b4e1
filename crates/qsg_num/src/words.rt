//! Small choices that several crates share.

use crate::ids::PageNo;

/// The order in which a queue delivers, as MSGDLVSQ names it.
#[derive(Clone, Copy, Debug, PartialEq, Eq)]
pub enum Delivery {
    /// By falling priority, then in order of putting.
    Priority,
    /// In order of putting.
    Fifo,
}

/// The three offload rules of a structure. Rule k fires for a body longer than its size once the structure
/// is as full as its threshold.
#[derive(Clone, Copy, Debug, PartialEq, Eq)]
pub struct Rules {
    /// Percent of the structure's elements.
    pub threshold: [u8; 3],
    /// Bytes in units of 1,024; 64 switches the rule off.
    pub size_k: [u8; 3],
}

/// How RECOVER CFSTRUCT ends: with the persistent messages restored, or with the structure emptied.
#[derive(Clone, Copy, Debug, PartialEq, Eq)]
pub enum RecoverKind {
    Normal,
    Purge,
}

/// What RESET SMDS asks of a data set.
#[derive(Clone, Copy, Debug, PartialEq, Eq)]
pub enum Wanted {
    AccessEnabled,
    AccessDisabled,
    StatusFailed,
    StatusRecovered,
}

/// Why a log can't be read on.
#[derive(Clone, Copy, Debug, PartialEq, Eq)]
pub enum LogWhy {
    /// A read of the device failed.
    Device,
    /// The body of this page is outside the grammar of pages, from byte `at` of the body on.
    BadPage { page: PageNo, at: u32 },
    /// A record that ends in this page is outside the grammar of records, from its byte `at` on.
    BadRecord { page: PageNo, at: u32 },
}

/// A call on a source, a sink or a device failed. It comes only where that object's count of faults rose.
#[derive(Clone, Copy, Debug, PartialEq, Eq)]
pub struct Failed;
