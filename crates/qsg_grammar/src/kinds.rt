//! Kinds of statement, and the table of those whose words have places.

ghost use Rattle.std.specs.Prelude.{◌≡◌};
ghost use Rattle.qsg_grammar.specs.Table.{slots_of, keywords_of};

use crate::keywords::Keyword;
use crate::slots::Slot;

/// How the words of a statement are read.
#[derive(Clone, Copy, Debug, PartialEq, Eq)]
pub enum Kind {
    /// As a definition: DEFINE.
    Define,
    /// As a command: BACKUP, RECOVER, RESET or DISPLAY.
    Command,
    /// By a row of the table.
    Listed(Row),
}

/// A row of the table of statements: some words with places behind the first, and then keywords in any order.
#[derive(Clone, Copy, Debug, PartialEq, Eq)]
pub enum Row {
    Group,
    Member,
    Facility,
    Task,
    Operator,
    Put,
    Get,
    Commit,
    Backout,
    /// WAIT for a task.
    WaitTask,
    /// WAIT OPERATOR.
    WaitOperator,
    Crash,
    Start,
    Stop,
    Lose,
    Schedule,
    /// A line of the schedule, for a task. Its first word is the member.
    TurnTask,
    /// A line of the schedule, for the operator.
    TurnOperator,
    End,
}

impl Row {
    /// What stands behind the first word, in order.
    pub fn slots(self) -> &'static [Slot]
        ensures { result.now ≡ slots_of self }
    {
        match self {
            Row::Group => &[Slot::GroupName],
            Row::Member => &[Slot::NewMember],
            Row::Facility => &[Slot::NewFacility],
            Row::Task => &[Slot::Member, Slot::NewTask],
            Row::Put | Row::Get => &[Slot::Queue],
            Row::WaitTask => &[Slot::ActorMember, Slot::AnyTask, Slot::Answers],
            Row::WaitOperator => &[Slot::ActorOperator, Slot::Answers],
            Row::Crash | Row::Start | Row::Stop => &[Slot::Member],
            Row::Lose => &[Slot::Structure],
            Row::TurnTask => &[Slot::AnyTask, Slot::Turns],
            Row::TurnOperator => &[Slot::Turns],
            Row::Operator | Row::Commit | Row::Backout | Row::Schedule | Row::End => &[],
        }
    }

    /// The keywords that may stand behind these, in any order.
    pub fn keywords(self) -> &'static [Keyword]
        ensures { result.now ≡ keywords_of self }
    {
        match self {
            Row::Member => &[Keyword::Log, Keyword::Pick],
            Row::Facility => &[Keyword::Elements, Keyword::Blocks],
            Row::Put => &[
                Keyword::Body,
                Keyword::Hex,
                Keyword::Size,
                Keyword::Pri,
                Keyword::Pers,
                Keyword::Msgid,
                Keyword::Correlid,
            ],
            Row::Get => &[Keyword::Msgid, Keyword::Correlid],
            Row::Crash => &[Keyword::Pick],
            _ => &[],
        }
    }
}
