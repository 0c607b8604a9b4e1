//! What is wrong with a script.

use qsg_grammar::Why;
use std::alloc::AllocError;

/// The first fault of a script.
#[derive(Debug, Drop)]
pub struct ScriptFault {
    /// The line, counted from 1: the first one of a statement, or that of a comment. It is 0 for a script that is too
    /// large, and the line behind the last where END is missing.
    pub line: u32,
    pub why: Why,
}

/// Why there is no plan.
#[derive(Debug, Drop)]
pub enum ScriptError {
    /// The script is at fault.
    Fault(ScriptFault),
    /// There was no memory for the plan, or for the fault.
    NoMemory,
}

impl From<AllocError> for ScriptError {
    ghost use Rattle.std.specs.Prelude.{◌≡◌};
    ghost use Rattle.qsg_script.specs.declared.faults.ScriptError.TheVariants.{NoMemory};

    ghost from_gives = { λ _ e. e ≡ NoMemory };

    fn from(_e: AllocError) -> ScriptError {
        ScriptError::NoMemory
    }
}
