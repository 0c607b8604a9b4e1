//! A statement.

use qsg_num::{Actor, Member, Name, StructNo, TaskNo};
use qsg_objects::{Definition, Directive, MemberDef, Size};

/// A statement of a script.
#[derive(Debug, Drop)]
pub enum Statement {
    /// GROUP, with its name.
    Group(Name),
    /// MEMBER.
    Member(MemberDef),
    /// DEFINE.
    Define(Definition),
    /// FACILITY: the size of a structure.
    Facility { structure: StructNo, size: Size },
    /// TASK, which opens the section of a task.
    Task(Member, TaskNo),
    /// OPERATOR, which opens the operator's section.
    Operator,
    /// A directive of the section at hand.
    Directive(Directive),
    /// SCHEDULE.
    Schedule,
    /// A line of the schedule: an actor, and how often it has its turn. One count above the limit of the steps
    /// stands for all.
    Turn(Actor, u32),
    /// END.
    End,
}
