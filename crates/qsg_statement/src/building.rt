//! The statement that words without a fault are.

ghost use Rattle.std.specs.Prelude.{◌≡◌, ◌≤◌, true, None, Some, IfOk, drop};
ghost use Rattle.qsg_num.specs.Names.{is_queue_name};
ghost use Rattle.qsg_grammar.specs.Faults.{row_fault};
ghost use Rattle.qsg_statement.specs.Words.{key_at, IsBodyRight};
ghost use Rattle.qsg_statement.specs.Statements.{member_def, facility_size, put_of, get_of, answers_of, turns_of, directive_by, listed_statement, command_directive};
ghost use Rattle.qsg_grammar.specs.Values.{task_of};

use crate::statements::Statement;
use crate::words::{
    body_of, count_behind, from_place, id_behind, id_or_zeros, key_at, member_of, name_of,
    number_or, persistent_of, priority_of, queue_of, structure_of,
};
use mqsc_admin::Admin;
use mqsc_lex::Word;
use mqsc_values::{Number, read_number};
use qsg_draft::Draft;
use qsg_grammar::{Keyword, Row, task_of};
use qsg_num::{Actor, DATA_SET_BYTES, ELEMENTS, LOG_PAGES, QueueName, SCHEDULE_STEPS, TaskNo};
use qsg_objects::{Directive, MemberDef, Size};
use std::alloc::{AllocError, Global};

/// Elements of a structure where FACILITY doesn't say.
const DEFAULT_ELEMENTS: u32 = 65_536;

/// Bytes of the blocks of a data set where FACILITY doesn't say, at most.
const DEFAULT_DATA_SET_BYTES: u32 = 16_777_216;

fn member_def(alloc: Global, name: &str, keywords: &[Word]) -> Result<MemberDef, AllocError>
    ensures { IfOk result (λ m. m ≡ member_def name.now keywords.now) }
{
    let most = u64::from(LOG_PAGES);
    Ok(MemberDef {
        name: name_of(alloc, name)?,
        log_pages: count_behind(keywords, Keyword::Log, most, most) as u32,
        pick: count_behind(keywords, Keyword::Pick, u64::MAX, 0),
    })
}

fn facility_size(draft: &Draft, name: &str, keywords: &[Word]) -> Size
    ensures { result ≡ facility_size draft.now name.now keywords.now }
{
    let structure = structure_of(draft, name);
    let most = u64::from(draft.blocks_in(structure, DATA_SET_BYTES));
    let default = u64::from(draft.blocks_in(structure, DEFAULT_DATA_SET_BYTES));
    let elements = count_behind(
        keywords,
        Keyword::Elements,
        u64::from(ELEMENTS),
        u64::from(DEFAULT_ELEMENTS),
    );
    Size {
        elements: elements as u32,
        blocks: count_behind(keywords, Keyword::Blocks, most, default) as u32,
    }
}

fn put_of(alloc: Global, queue: QueueName, keywords: &[Word]) -> Result<Directive, AllocError>
    requires { IsBodyRight keywords.now }
    ensures { IfOk result (λ d. d ≡ put_of queue keywords.now) }
{
    Ok(Directive::Put {
        queue,
        body: body_of(alloc, keywords)?,
        priority: priority_of(keywords),
        persistent: persistent_of(keywords),
        msg_id: id_or_zeros(keywords, Keyword::Msgid),
        correl_id: id_or_zeros(keywords, Keyword::Correlid),
    })
}

fn get_of(queue: QueueName, keywords: &[Word]) -> Directive
    ensures { result ≡ get_of queue keywords.now }
{
    Directive::Get {
        queue,
        msg_id: id_behind(keywords, Keyword::Msgid),
        correl_id: id_behind(keywords, Keyword::Correlid),
    }
}

/// The answers for which a WAIT waits.
fn answers_of(text: &str) -> u32
    ensures { result ≡ answers_of text.now }
{
    match read_number(text.as_bytes(), u64::from(u32::MAX)) {
        Number::Value(n) => n as u32,
        Number::TooLarge | Number::Bad => 0,
    }
}

/// A count of the schedule; one above the limit stands for all above it.
fn turns_of(text: &str) -> u32
    ensures { result ≡ turns_of text.now }
{
    number_or(text.as_bytes(), SCHEDULE_STEPS, SCHEDULE_STEPS + 1) as u32
}

/// The task at a place of a statement.
fn task_at(words: &[Word], place: usize) -> TaskNo
    ensures { result ≡ task_of (key_at place words.now) }
{
    task_of(key_at(words, place).as_bytes())
}

/// The directive that words without a fault are, by a row of the table that is one of a directive; COMMIT by another.
fn directive_of(
    alloc: Global,
    draft: &Draft,
    row: Row,
    words: &[Word],
) -> Result<Directive, AllocError>
    requires { row_fault draft.now row words.now ≡ None }
    ensures { IfOk result (λ d. d ≡ directive_by draft.now row words.now) }
{
    let name = key_at(words, 1);
    let keywords = from_place(words, 2);
    Ok(match row {
        Row::Put => put_of(alloc, queue_of(alloc, name)?, keywords)?,
        Row::Get => get_of(queue_of(alloc, name)?, keywords),
        Row::Backout => Directive::Backout,
        Row::WaitTask => Directive::Wait(
            Actor::Task(member_of(draft, name), task_at(words, 2)),
            answers_of(key_at(words, 3)),
        ),
        Row::WaitOperator => Directive::Wait(Actor::Operator, answers_of(key_at(words, 2))),
        Row::Crash => Directive::Crash(
            member_of(draft, name),
            count_behind(keywords, Keyword::Pick, u64::MAX, 0),
        ),
        Row::Start => Directive::Start(member_of(draft, name)),
        Row::Stop => Directive::Stop(member_of(draft, name)),
        Row::Lose => Directive::Lose(structure_of(draft, name)),
        _ => Directive::Commit,
    })
}

/// The statement that words without a fault are, by a row of the table.
pub fn listed_statement(
    alloc: Global,
    draft: &Draft,
    row: Row,
    words: &[Word],
) -> Result<Statement, AllocError>
    requires { row_fault draft.now row words.now ≡ None }
    ensures { IfOk result (λ s. s ≡ listed_statement draft.now row words.now) }
{
    let name = key_at(words, 1);
    let keywords = from_place(words, 2);
    Ok(match row {
        Row::Group => Statement::Group(name_of(alloc, name)?),
        Row::Member => Statement::Member(member_def(alloc, name, keywords)?),
        Row::Facility => Statement::Facility {
            structure: structure_of(draft, name),
            size: facility_size(draft, name, keywords),
        },
        Row::Task => Statement::Task(member_of(draft, name), task_at(words, 2)),
        Row::Operator => Statement::Operator,
        Row::Schedule => Statement::Schedule,
        Row::TurnTask => Statement::Turn(
            Actor::Task(member_of(draft, key_at(words, 0)), task_at(words, 1)),
            turns_of(key_at(words, 2)),
        ),
        Row::TurnOperator => Statement::Turn(Actor::Operator, turns_of(name)),
        Row::End => Statement::End,
        _ => Statement::Directive(directive_of(alloc, draft, row, words)?),
    })
}

/// The directive that a command is, with the member of a RESET; the first member where that isn't defined.
pub fn command_directive(draft: &Draft, command: Admin) -> Directive
    ensures { result ≡ command_directive draft.now command }
{
    match command {
        Admin::Backup(structure) => Directive::Backup(structure),
        Admin::Recover(structure, kind) => Directive::Recover(structure, kind),
        Admin::ResetSmds(member, structure, wanted) => {
            Directive::ResetSmds(member_of(draft, member.as_str()), structure, wanted)
        }
        Admin::DisplayCfstatus(structure) => Directive::DisplayCfstatus(structure),
        Admin::DisplayQueue(queue) => Directive::DisplayQueue(queue),
        Admin::DisplaySmds(structure) => Directive::DisplaySmds(structure),
    }
}
