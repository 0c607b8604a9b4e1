//! A command, or the first fault of its words.

ghost use Rattle.std.specs.Prelude.{◌≡◌, ◌<◌, ◌^◌, None, length, OnOk, IfOk, IfErr, Some, Err};
ghost use Rattle.mqsc_define.specs.Reading.{Says};
ghost use Rattle.mqsc_define.specs.declared.faults.DefineFault.{DefineFault};
ghost use Rattle.mqsc_admin.specs.Faults.{admin_fault};
ghost use Rattle.mqsc_admin.specs.Admins.{admin_of};

use crate::admins::Admin;
use crate::building::admin_of;
use crate::checking::admin_fault;
use mqsc_define::DefineError;
use mqsc_lex::Words;
use std::alloc::Global;

/// The command that words are, or their first fault. Places are numbers of words in the list, from 0. A name in
/// a command is of the right form, and may be defined or not. EXCLINT has no effect.
pub fn parse_admin(alloc: Global, words: &Words) -> Result<Admin, DefineError>
    requires { length words.now < 2 ^ 32 }
    // The command is what the words say, and they have no fault.
    ensures command { IfOk result (λ a. a ≡ admin_of words.now) }
    ensures accepted { OnOk result (admin_fault words.now ≡ None) }
    // A fault is their first; memory runs out only where they have none.
    ensures refused { IfErr result (λ e. Says e (admin_fault words.now)) }
    // So where there is a fault, that is the answer.
    ensures refuses { (fault : DefineFault) → admin_fault words.now ≡ Some fault → result ≡ Err (DefineError.Fault fault) }
{
    let words = words.as_slice();
    if let Some(fault) = admin_fault(words) {
        return Err(DefineError::Fault(fault));
    }
    Ok(admin_of(alloc, words)?)
}
