//! The status and the text that are due.

ghost use Rattle.std.specs.Prelude.{◌≡◌, IfOk};
ghost use Rattle.qsg_run.specs.declared.dues.Stop.TheVariants as stop;
ghost use Rattle.qsg_run.specs.Texts.{fault_text};

use crate::status::Status;
use qsg_answers::{push_counted, push_text};
use qsg_num::Bytes;
use qsg_script::ScriptFault;
use std::alloc::{AllocError, Global};

/// A status, and the text that goes with it.
#[derive(Drop)]
pub struct Due {
    pub status: Status,
    pub text: Bytes,
}

/// Why there is nothing to report.
#[derive(Debug, Drop)]
pub enum Stop {
    /// The words are none that the program knows.
    Usage,
    /// The bytes are no script.
    Script(ScriptFault),
    /// The source failed.
    Read,
    /// The rig failed.
    Rig,
    NoMemory,
}

impl From<AllocError> for Stop {
    ghost from_gives = { λ _ e. e ≡ stop.NoMemory };

    fn from(_: AllocError) -> Self {
        Stop::NoMemory
    }
}

/// The line of a script's fault.
pub fn fault_line(alloc: Global, fault: &ScriptFault) -> Result<Bytes, AllocError>
    ensures { IfOk result (λ text. text ≡ fault_text fault.now) }
{
    let why = fault.why.text(alloc)?;
    let mut out = Vec::new(alloc);
    push_counted(&mut out, b"script line ", u64::from(fault.line))?;
    push_text(&mut out, b": ")?;
    push_text(&mut out, why.as_slice())?;
    push_text(&mut out, b"\n")?;
    Ok(Bytes::from_vec(out))
}
