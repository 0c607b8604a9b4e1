//! What a statement does to what was read.

ghost use Rattle.std.specs.Prelude.{◌≡◌, OnOk, OnErr};
ghost use Rattle.qsg_statement.specs.Taking.{taken, Fits};

use qsg_draft::Draft;
use qsg_num::Actor;
use qsg_statement::Statement;
use std::alloc::AllocError;

/// Takes a statement that was read behind this draft. Where memory runs out, the draft stays as it was.
pub fn take(draft: &mut Draft, statement: Statement) -> Result<(), AllocError>
    requires { Fits statement draft.old }
    ensures ok { OnOk result (draft.new ≡ taken statement draft.old) }
    ensures err { OnErr result (draft.new ≡ draft.old) }
{
    match statement {
        Statement::Group(name) => {
            draft.start(name);
            Ok(())
        }
        Statement::Member(member) => draft.add_member(member),
        Statement::Define(definition) => draft.define(definition),
        Statement::Facility { structure, size } => draft.add_facility(structure, size),
        Statement::Task(member, task) => draft.open_section(Actor::Task(member, task)),
        Statement::Operator => draft.open_section(Actor::Operator),
        Statement::Directive(directive) => draft.add_directive(directive),
        Statement::Schedule => {
            draft.open_schedule();
            Ok(())
        }
        Statement::Turn(actor, count) => draft.add_turn(actor, count),
        Statement::End => {
            draft.end();
            Ok(())
        }
    }
}
