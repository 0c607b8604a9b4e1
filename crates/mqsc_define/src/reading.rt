//! A definition, or the first fault of its words.

ghost use Rattle.std.specs.Prelude.{◌≡◌, ◌<◌, ◌^◌, None, length, OnOk, IfOk, IfErr, Some, Err};
ghost use Rattle.mqsc_define.specs.Faults.{define_fault};
ghost use Rattle.mqsc_define.specs.Definitions.{definition_of};
ghost use Rattle.mqsc_define.specs.Ranges.{IsInRange};
ghost use Rattle.mqsc_define.specs.Reading.{Says};
ghost use Rattle.mqsc_define.specs.declared.faults.DefineFault.{DefineFault};

use crate::building::definition_of;
use crate::checking::define_fault;
use crate::faults::DefineError;
use mqsc_lex::Words;
use qsg_objects::Definition;
use std::alloc::Global;

/// The definition that the words of a DEFINE make, or their first fault.
pub fn define(alloc: Global, words: &Words) -> Result<Definition, DefineError>
    requires { length words.now < 2 ^ 32 }
    // What is made is what the words say, and they have no fault.
    ensures definition { IfOk result (λ d. d ≡ definition_of words.now) }
    ensures accepted { OnOk result (define_fault words.now ≡ None) }
    ensures ranges { IfOk result IsInRange }
    // A fault is their first; memory runs out only where they have none.
    ensures refused { IfErr result (λ e. Says e (define_fault words.now)) }
    // So where there is a fault, that is the answer.
    ensures refuses { (fault : DefineFault) → define_fault words.now ≡ Some fault → result ≡ Err (DefineError.Fault fault) }
{
    let words = words.as_slice();
    if let Some(fault) = define_fault(words) {
        return Err(DefineError::Fault(fault));
    }
    Ok(definition_of(alloc, words)?)
}
