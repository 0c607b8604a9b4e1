//! A statement, or the first fault of its text.

ghost use Rattle.std.specs.Prelude.{◌≡◌, ◌≤◌, None, length, OnOk, IfOk, IfErr};
ghost use Rattle.qsg_grammar.specs.declared.kinds.Kind.TheVariants.{Define, Command, Listed};
ghost use Rattle.qsg_grammar.specs.Faults.{definition_fault, command_fault, row_fault, kind_fault, statement_fault, reset_fault};
ghost use Rattle.qsg_statement.specs.Statements.{statement_of};
ghost use Rattle.qsg_statement.specs.Reading.{MeansWords, IsStatement, IsWhy, Says, Refuses, SaysWords};
ghost use Rattle.qsg_statement.specs.Taking.{Fits};

use crate::building::{command_directive, listed_statement};
use crate::statements::Statement;
use crate::texts::read_text;
use mqsc_admin::{Admin, parse_admin};
use mqsc_define::{DefineError, define};
use mqsc_lex::{LexError, Word, Words, lex};
use qsg_draft::Draft;
use qsg_grammar::{Fault, Kind, Row, Why, kind_of, row_fault, smds_place, start_fault, why_of};
use qsg_num::SCRIPT_BYTES;
use std::alloc::{AllocError, Global};

/// Why a text isn't a statement here.
#[derive(Debug, Drop)]
pub enum StatementError {
    /// Its first fault.
    Fault(Why),
    /// There was no memory for the statement, or for its fault.
    NoMemory,
}

impl From<AllocError> for StatementError {
    ghost use Rattle.qsg_statement.specs.declared.reading.StatementError.TheVariants.{NoMemory};

    ghost from_gives = { λ _ e. e ≡ NoMemory };

    fn from(_e: AllocError) -> StatementError {
        StatementError::NoMemory
    }
}

/// Why words aren't a statement here.
#[derive(Clone, Copy, Debug)]
enum Refused {
    /// Their first fault.
    Fault(Fault),
    /// There was no memory for the statement.
    NoMemory,
}

impl From<AllocError> for Refused {
    ghost use Rattle.qsg_statement.specs.declared.reading.Refused.TheVariants.{NoMemory};

    ghost from_gives = { λ _ e. e ≡ NoMemory };

    fn from(_e: AllocError) -> Refused {
        Refused::NoMemory
    }
}

/// A DEFINE.
fn read_definition(alloc: Global, draft: &Draft, words: &Words) -> Result<Statement, Refused>
    requires { length words.now ≤ 4194304 }
    ensures right { OnOk result (definition_fault draft.now words.now ≡ None) }
    ensures value { IfOk result (λ s. s ≡ statement_of draft.now Define words.now) }
    ensures fits { IfOk result (λ s. Fits s draft.now) }
    ensures fault { IfErr result (λ e. Refuses e (definition_fault draft.now words.now)) }
{
    let definition = match define(alloc, words) {
        Ok(definition) => definition,
        Err(DefineError::Fault(fault)) => return Err(Refused::Fault(Fault::Define(fault))),
        Err(DefineError::NoMemory) => return Err(Refused::NoMemory),
    };
    match draft.refusal(&definition) {
        None => Ok(Statement::Define(definition)),
        Some(fault) => Err(Refused::Fault(Fault::Object(fault))),
    }
}

/// What is wrong with a command whose words are right: that the member of a RESET isn't defined.
fn reset_fault(draft: &Draft, words: &[Word], command: &Admin) -> Option<Fault>
    requires { length words.now ≤ 4194304 }
    ensures { result ≡ reset_fault draft.now words.now command.now }
{
    match command {
        Admin::ResetSmds(member, _, _) if draft.member_named(member.as_str()).is_none() => {
            Some(Fault::UnknownName(smds_place(words) as u32))
        }
        _ => None,
    }
}

/// A command.
fn read_command(alloc: Global, draft: &Draft, words: &Words) -> Result<Statement, Refused>
    requires { length words.now ≤ 4194304 }
    ensures right { OnOk result (command_fault draft.now words.now ≡ None) }
    ensures value { IfOk result (λ s. s ≡ statement_of draft.now Command words.now) }
    ensures fits { IfOk result (λ s. Fits s draft.now) }
    ensures fault { IfErr result (λ e. Refuses e (command_fault draft.now words.now)) }
{
    let command = match parse_admin(alloc, words) {
        Ok(command) => command,
        Err(DefineError::Fault(fault)) => return Err(Refused::Fault(Fault::Define(fault))),
        Err(DefineError::NoMemory) => return Err(Refused::NoMemory),
    };
    match reset_fault(draft, words.as_slice(), &command) {
        None => Ok(Statement::Directive(command_directive(draft, command))),
        Some(fault) => Err(Refused::Fault(fault)),
    }
}

/// A statement of the table.
fn read_listed(alloc: Global, draft: &Draft, row: Row, words: &[Word]) -> Result<Statement, Refused>
    requires { length words.now ≤ 4194304 }
    ensures right { OnOk result (row_fault draft.now row words.now ≡ None) }
    ensures value { IfOk result (λ s. s ≡ statement_of draft.now (Listed row) words.now) }
    ensures fits { IfOk result (λ s. Fits s draft.now) }
    ensures fault { IfErr result (λ e. Refuses e (row_fault draft.now row words.now)) }
{
    match row_fault(draft, row, words) {
        None => Ok(listed_statement(alloc, draft, row, words)?),
        Some(fault) => Err(Refused::Fault(fault)),
    }
}

/// A statement of this kind.
fn read_kind(alloc: Global, draft: &Draft, kind: Kind, words: &Words) -> Result<Statement, Refused>
    requires { length words.now ≤ 4194304 }
    ensures right { OnOk result (kind_fault draft.now kind words.now ≡ None) }
    ensures value { IfOk result (λ s. s ≡ statement_of draft.now kind words.now) }
    ensures fits { IfOk result (λ s. Fits s draft.now) }
    ensures fault { IfErr result (λ e. Refuses e (kind_fault draft.now kind words.now)) }
{
    match kind {
        Kind::Define => read_definition(alloc, draft, words),
        Kind::Command => read_command(alloc, draft, words),
        Kind::Listed(row) => read_listed(alloc, draft, row, words.as_slice()),
    }
}

/// The statement that words are, or their first fault.
fn read_words(alloc: Global, draft: &Draft, words: &Words) -> Result<Statement, Refused>
    requires { length words.now ≤ 4194304 }
    ensures statement { IfOk result (MeansWords draft.now words.now) }
    ensures fits { IfOk result (λ s. Fits s draft.now) }
    ensures fault { IfErr result (λ e. Refuses e (statement_fault draft.now words.now)) }
{
    match kind_of(draft, words.as_slice()) {
        Some(kind) => read_kind(alloc, draft, kind, words),
        None => Err(Refused::Fault(start_fault(draft.stage()))),
    }
}

/// Why a text isn't a statement, with the slice of the word at fault.
fn why(alloc: Global, text: &str, words: &Words, refused: Refused) -> StatementError
    ensures { SaysWords text.now words.now refused result }
{
    match refused {
        Refused::NoMemory => StatementError::NoMemory,
        Refused::Fault(fault) => match why_of(alloc, text, words.as_slice(), fault) {
            Ok(why) => StatementError::Fault(why),
            Err(_) => StatementError::NoMemory,
        },
    }
}

/// The statement that a text is behind what was read, or its first fault.
pub fn read_statement(alloc: Global, draft: &Draft, text: &str) -> Result<Statement, StatementError>
    requires { length text.now ≤ SCRIPT_BYTES }
    // What is read is what the text says, without a fault,
    ensures statement { IfOk result (IsStatement draft.now text.now) }
    // and it can be taken.
    ensures fits { IfOk result (λ s. Fits s draft.now) }
    // A fault is the first one.
    ensures fault { IfErr result (Says (IsWhy draft.now text.now)) }
{
    let words = match lex(alloc, read_text(text)) {
        Ok(words) => words,
        Err(LexError::Fault(fault)) => return Err(StatementError::Fault(Why::Lex(fault))),
        Err(LexError::NoMemory) => return Err(StatementError::NoMemory),
    };
    match read_words(alloc, draft, &words) {
        Ok(statement) => Ok(statement),
        Err(refused) => Err(why(alloc, text, &words, refused)),
    }
}
