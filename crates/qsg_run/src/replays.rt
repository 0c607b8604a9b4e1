//! The replay of a plan, from its new group to the report.

ghost use Rattle.std.specs.Prelude.{◌≡◌, ◌≤◌, ◌<◌, List, length, option_map, IfOk, IfErr, OnOk};
ghost use Rattle.qsg_sysplex.specs.Plans.{IsWorkable};
ghost use Rattle.qsg_words.specs.declared.command.Command.TheVariants as commands;
ghost use Rattle.qsg_drive.specs.Runs.{Made, IsRun, IsNewCourse};
ghost use Rattle.qsg_run.specs.Replays.{IsReported, IsReplayed, course_for, IsEnd};
ghost use Rattle.qsg_run.specs.Top.{IsNoRun};

use crate::dues::{Due, Stop};
use crate::groups::Driven;
use crate::shows::shown_of;
use crate::status::Status;
use qsg_disk::{Disk, Rig};
use qsg_drive::drive;
use qsg_num::Actor;
use qsg_objects::{Actors, Plan, Turns};
use qsg_report::report;
use qsg_schedule::Chooser;
use qsg_sysplex::{MakeFault, Sysplex, actors_of};
use std::alloc::{AllocError, Global};

/// The chooser of a replay: drawn from a seed, or by the schedule.
fn chooser_for(
    alloc: Global,
    seed: Option<u64>,
    schedule: &Turns,
    actors: &[Actor],
) -> Result<Chooser, AllocError>
    requires some { 0 < length actors.now }
    ensures { IfOk result (λ chooser. chooser ≡ course_for seed schedule.now actors.now) }
{
    let all = Actors::from_slice(alloc, actors)?;
    match seed {
        Some(number) => Ok(Chooser::seeded(number, all)),
        None => Ok(Chooser::listed(Turns::from_slice(alloc, schedule.as_slice())?, all)),
    }
}

/// How a run of a group ended.
fn end_of<D: Disk + Drop>(sysplex: &Sysplex<D>) -> Status
    ensures { IsEnd sysplex.now result }
{
    if sysplex.finished() {
        Status::Finished
    } else {
        Status::Stuck
    }
}

/// The report of a group as it stands.
fn report_of<D: Disk + Drop>(
    alloc: Global,
    sysplex: &Sysplex<D>,
    actors: &[Actor],
) -> Result<Due, AllocError>
    ensures { IfOk result (λ due. IsReported actors.now sysplex.now due.status due.text) }
{
    sysplex.kept();
    let shown = shown_of(alloc, sysplex, actors)?;
    Ok(Due {
        status: end_of(sysplex),
        text: report(alloc, actors, sysplex, sysplex.history(), &shown)?,
    })
}

/// Runs a group to its end, and reports of it.
fn run_out<D: Disk + Drop>(
    alloc: Global,
    group: &mut Driven<D>,
    chooser: Chooser,
    actors: &[Actor],
) -> Result<Due, AllocError>
    requires some { 0 < length actors.now }
    requires new { IsNewCourse actors.now chooser }
    ensures ran { OnOk result ((path : List Made) × IsRun actors.now chooser group.old.sysplex path group.new.sysplex) }
    ensures report { IfOk result (λ due. IsReported actors.now group.new.sysplex due.status due.text) }
{
    drive(alloc, group, chooser, actors)?;
    report_of(alloc, &group.sysplex, actors)
}

/// Makes the group of a plan on new devices, runs it to its end, and reports of it. The devices are given back, however
/// it ends.
pub fn replay_plan<R: Rig>(
    alloc: Global,
    seed: Option<u64>,
    plan: Plan,
    rig: &mut R,
) -> Result<Due, Stop>
    requires { IsWorkable plan }
    ensures due { IfOk result (λ due. IsReplayed seed plan (record { tells = R.tells rig.old; devices = λ m k. option_map (λ d. R.D.bytes d) (R.given rig.new m k) }) due.status due.text) }
    ensures stop { IfErr result (IsNoRun (commands.Replay seed) (R.faults rig.old) (R.faults rig.new)) }
    ensures later { R.faults rig.old ≤ R.faults rig.new }
{
    let actors = actors_of(alloc, &plan)?;
    let chooser = chooser_for(alloc, seed, &plan.schedule, actors.as_slice())?;
    let mut group = match Sysplex::make(alloc, plan, rig) {
        Ok(sysplex) => Driven { sysplex },
        Err(MakeFault::NoMemory) => return Err(Stop::NoMemory),
        Err(MakeFault::Rig(..)) => return Err(Stop::Rig),
    };
    let due = run_out(alloc, &mut group, chooser, actors.as_slice());
    group.sysplex.close(rig);
    Ok(due?)
}
