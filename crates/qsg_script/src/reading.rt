//! The plan of a script, or its first fault.

ghost use Rattle.std.specs.Prelude.{◌≡◌, ◌≤◌, length, Ok, Err, IfOk, IfErr, OnOk};
ghost use Rattle.qsg_objects.specs.declared.plans.Plan.{Plan};
ghost use Rattle.qsg_lines.specs.Items.{script_of};
ghost use Rattle.qsg_draft.specs.Plans.{plan_of};
ghost use Rattle.qsg_draft.specs.declared.stages.Stage.TheVariants.{Ended};
ghost use Rattle.qsg_statement.specs.Taking.{taken, Fits};
ghost use Rattle.qsg_script.specs.declared.faults.ScriptFault.{ScriptFault};
ghost use Rattle.qsg_script.specs.Script.{Takes, TakesAll, IsFaultOf, IsFaultAmong, IsUnended, why_of_line, IsPlan, IsFirstFault, Says, Gives};

use crate::faults::{ScriptError, ScriptFault};
use crate::taking::take;
use qsg_draft::{Draft, Stage};
use qsg_grammar::Why;
use qsg_lines::{Item, LineFault, Statements};
use qsg_num::SCRIPT_BYTES;
use qsg_objects::Plan;
use qsg_statement::{Statement, StatementError, read_statement};
use std::alloc::Global;

/// A fault at a line.
fn fault_at(line: u32, why: Why) -> ScriptError
    ensures { result ≡ ScriptError.Fault (record { line = line; why = why }) }
{
    ScriptError::Fault(ScriptFault { line, why })
}

/// The fault of a line, as that of a script.
fn why_of_line(fault: LineFault) -> Why
    ensures { result ≡ why_of_line fault }
{
    match fault {
        LineFault::LongLine => Why::LongLine,
        LineFault::NotUtf8 => Why::NotUtf8,
    }
}

/// The statement that an item is behind what was read, or its fault.
fn read_item(alloc: Global, draft: &Draft, item: &Item) -> Result<Statement, ScriptError>
    requires { IfOk item.now.text (λ text. length text ≤ SCRIPT_BYTES) }
    ensures takes { IfOk result (λ s. Takes draft.now item.now (taken s draft.now)) }
    ensures fits { IfOk result (λ s. Fits s draft.now) }
    ensures fault { IfErr result (Says (IsFaultOf draft.now item.now)) }
{
    let text = match &item.text {
        Ok(text) => text.as_str(),
        Err(fault) => return Err(fault_at(item.line, why_of_line(*fault))),
    };
    match read_statement(alloc, draft, text) {
        Ok(statement) => Ok(statement),
        Err(StatementError::Fault(why)) => Err(fault_at(item.line, why)),
        Err(StatementError::NoMemory) => Err(ScriptError::NoMemory),
    }
}

/// Reads an item behind what was read, and takes its statement.
fn take_item(alloc: Global, draft: &mut Draft, item: &Item) -> Result<(), ScriptError>
    requires { IfOk item.now.text (λ text. length text ≤ SCRIPT_BYTES) }
    ensures takes { OnOk result (Takes draft.old item.now draft.new) }
    ensures fault { IfErr result (Says (IsFaultOf draft.old item.now)) }
{
    let statement = read_item(alloc, draft, item)?;
    take(draft, statement)?;
    Ok(())
}

/// Reads what is left of a script behind what was read of it.
fn take_items(
    alloc: Global,
    draft: &mut Draft,
    statements: &mut Statements,
) -> Result<(), ScriptError>
    ensures takes { OnOk result (TakesAll draft.old statements.old.items draft.new) }
    ensures fault { IfErr result (Says (IsFaultAmong draft.old statements.old.items)) }
    ensures end { OnOk result (statements.new.end ≡ statements.old.end) }
{
    while let Some(item) = statements.next(alloc)? {
        take_item(alloc, draft, &item)?;
    }
    Ok(())
}

/// Reads a whole script behind what was read, and gives the line behind its last.
fn take_script(alloc: Global, draft: &mut Draft, bytes: &[u8]) -> Result<u32, ScriptError>
    requires { length bytes.now ≤ SCRIPT_BYTES }
    ensures takes { OnOk result (TakesAll draft.old (script_of bytes.now).items draft.new) }
    ensures end { IfOk result (λ line. line ≡ (script_of bytes.now).end) }
    ensures fault { IfErr result (Says (IsFaultAmong draft.old (script_of bytes.now).items)) }
{
    let mut statements = Statements::new(bytes);
    take_items(alloc, draft, &mut statements)?;
    Ok(statements.end())
}

/// The plan of what was read, where END was; the fault that it is missing, at this line, where it wasn't.
fn ended_plan(draft: Draft, end: u32) -> Result<Plan, ScriptError>
    ensures plan { IfOk result (λ plan. (draft.stage ≡ Ended) × (plan ≡ plan_of draft)) }
    ensures fault { IfErr result (Says (IsUnended draft end)) }
{
    if !matches!(draft.stage(), Stage::Ended) {
        return Err(fault_at(end, Why::NoEnd));
    }
    Ok(draft.into_plan()?)
}

/// The plan of bytes, or their first fault.
fn read_script(alloc: Global, bytes: &[u8]) -> Result<Plan, ScriptError>
    ensures plan { IfOk result (IsPlan bytes.now) }
    ensures fault { IfErr result (Says (IsFirstFault bytes.now)) }
{
    if bytes.len() > SCRIPT_BYTES {
        return Err(fault_at(0, Why::TooLarge(SCRIPT_BYTES as u32)));
    }
    let mut draft = Draft::new(alloc);
    match take_script(alloc, &mut draft, bytes) {
        Ok(end) => ended_plan(draft, end),
        Err(error) => Err(error),
    }
}

/// The plan that the bytes of a script are, or their first fault. It takes time linear in the bytes, but for the
/// look-ups of names.
pub fn read(alloc: Global, bytes: &[u8]) -> Result<Plan, ScriptError>
    // What is read is the plan of these bytes.
    ensures plan { IfOk result (IsPlan bytes.now) }
    // A fault is their first.
    ensures fault { IfErr result (Says (IsFirstFault bytes.now)) }
    // Unless memory runs out, bytes of a plan are read as it,
    ensures reads { (plan : Plan) → IsPlan bytes.now plan → Gives (Ok plan) result }
    // and bytes with a first fault are refused with it.
    ensures refuses { (fault : ScriptFault) → IsFirstFault bytes.now fault → Gives (Err fault) result }
{
    read_script(alloc, bytes)
}
