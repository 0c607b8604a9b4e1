//! Where the program's bytes come from and go to.
//!
//! - `traits`: a source of bytes and a sink for bytes, and what each call of them means.
//! - `memory`: a source and a sink in memory, with calls that fail where they are told to.
//! - `stream`: standard input and output, over any reader and writer of std.
#![tactic(auto)]

mod memory;
mod stream;
mod traits;

pub use memory::{MemSink, MemSource};
pub use qsg_num::Failed;
pub use stream::{StdSink, StdSource};
pub use traits::{Sink, Source};

#[cfg(test)]
mod tests;
