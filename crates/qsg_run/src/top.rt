//! The top call, which does all that the program does.

ghost use Rattle.std.specs.Prelude.{◌≡◌, ◌≢◌, ◌≤◌, List, ℕ, Option, Some, None, take, map, option_map, IfOk, IfErr, string_bytes};
ghost use Rattle.qsg_objects.specs.declared.plans.Plan.{Plan};
ghost use Rattle.qsg_script.specs.declared.faults.ScriptFault.{ScriptFault};
ghost use Rattle.qsg_script.specs.Script.{IsPlan, IsFirstFault};
ghost use Rattle.qsg_words.specs.declared.command.Command.TheVariants as commands;
ghost use Rattle.qsg_words.specs.Table.{command_of};
ghost use Rattle.qsg_run.specs.Outside.{read_limit};
ghost use Rattle.qsg_sysplex.specs.Plans.{IsWorkable};
ghost use Rattle.qsg_run.specs.Texts.{no_memory_text};
ghost use Rattle.qsg_run.specs.Top.{Met, IsAsked, IsScript, IsObeyed, IsReport, IsStop, IsNoCommand, IsNoPlan, IsNoRun, Sent, Ends, IsUsage, HasRun, IsUnlessFailed};

use crate::dues::{Due, Stop, fault_line};
use crate::outside::{ReadStop, read_all, write_all};
use crate::replays::replay_plan;
use crate::status::Status;
use qsg_disk::Rig;
use qsg_io::{Sink, Source};
use qsg_objects::Plan;
use qsg_report::definitions;
use qsg_script::{ScriptError, read};
use qsg_words::{Command, WordsError};
use std::alloc::{AllocError, Global};

/// What is printed where the words are none that the program knows.
const USAGE: &[u8] = b"usage: qsg replay [--seed N] / run / check / gen N / soak N\n";

/// What the words ask for.
fn command_of(alloc: Global, words: &[String]) -> Result<Command, Stop>
    ensures command { IfOk result (λ c. command_of (map (λ w. string_bytes w) words.now) ≡ Some c) }
    ensures stop { IfErr result (λ e. IsNoCommand (command_of (map (λ w. string_bytes w) words.now)) e) }
{
    match Command::of(alloc, words) {
        Ok(command) => Ok(command),
        Err(WordsError::Usage) => Err(Stop::Usage),
        Err(WordsError::NoMemory) => Err(Stop::NoMemory),
    }
}

/// The plan of the script of a source.
fn plan_of<S: Source>(alloc: Global, source: &mut S) -> Result<Plan, Stop>
    ensures plan { IfOk result (IsScript (S.left source.old)) }
    ensures stop { IfErr result (IsNoPlan (S.left source.old) (S.faults source.old) (S.faults source.new)) }
{
    let bytes = match read_all(alloc, source) {
        Ok(bytes) => bytes,
        Err(ReadStop::NoMemory) => return Err(Stop::NoMemory),
        Err(ReadStop::Fault) => return Err(Stop::Read),
    };
    match read(alloc, bytes.as_slice()) {
        Ok(plan) => Ok(plan),
        Err(ScriptError::NoMemory) => Err(Stop::NoMemory),
        Err(ScriptError::Fault(fault)) => Err(Stop::Script(fault)),
    }
}

/// What a command makes of a plan.
fn obeyed<R: Rig>(alloc: Global, command: Command, plan: Plan, rig: &mut R) -> Result<Due, Stop>
    requires { IsWorkable plan }
    ensures due { IfOk result (λ due. IsObeyed command plan (record { tells = R.tells rig.old; devices = λ m k. option_map (λ d. R.D.bytes d) (R.given rig.new m k) }) due.status due.text) }
    ensures stop { IfErr result (IsNoRun command (R.faults rig.old) (R.faults rig.new)) }
    ensures later { R.faults rig.old ≤ R.faults rig.new }
{
    match command {
        Command::Replay(seed) => replay_plan(alloc, seed, plan, rig),
        Command::Check => Ok(Due {
            status: Status::Finished,
            text: definitions(alloc, &plan.objects, &plan.sizes)?,
        }),
    }
}

/// What is due, or why there is nothing to report.
fn outcome<S: Source, R: Rig>(
    alloc: Global,
    words: &[String],
    source: &mut S,
    rig: &mut R,
) -> Result<Due, Stop>
    ensures due { IfOk result (λ due. IsReport (record { words = map (λ w. string_bytes w) words.now; left = S.left source.old; read_before = S.faults source.old; read_now = S.faults source.new; rig_before = R.faults rig.old; rig_now = R.faults rig.new; back = record { tells = R.tells rig.old; devices = λ m k. option_map (λ d. R.D.bytes d) (R.given rig.new m k) } }) due.status due.text) }
    ensures stop { IfErr result (IsStop (record { words = map (λ w. string_bytes w) words.now; left = S.left source.old; read_before = S.faults source.old; read_now = S.faults source.new; rig_before = R.faults rig.old; rig_now = R.faults rig.new; back = record { tells = R.tells rig.old; devices = λ m k. option_map (λ d. R.D.bytes d) (R.given rig.new m k) } })) }
{
    let command = command_of(alloc, words)?;
    let plan = plan_of(alloc, source)?;
    obeyed(alloc, command, plan, rig)
}

/// Writes the text that is due, and gives the status: the one that is due, unless a write fails.
fn send<K: Sink>(sink: &mut K, text: &[u8], status: Status) -> Status
    requires { status ≢ Status.WriteFault }
    ensures { Sent status text.now (K.written sink.old) (K.written sink.new) (K.faults sink.old) (K.faults sink.new) result }
{
    match write_all(sink, text) {
        Ok(()) => status,
        Err(_) => Status::WriteFault,
    }
}

/// Ends a call for which memory is wanting: writes `no memory`. A program calls it that can't even hold its words.
pub fn no_memory<K: Sink>(sink: &mut K) -> Status
    ensures { Sent Status.NoMemory no_memory_text (K.written sink.old) (K.written sink.new) (K.faults sink.old) (K.faults sink.new) result }
{
    send(sink, b"no memory\n", Status::NoMemory)
}

/// Writes why there is nothing to report.
fn send_stop<K: Sink>(alloc: Global, sink: &mut K, stop: Stop) -> Status
    ensures { (met : Met) → IsStop met stop → Ends met (K.written sink.old) (K.written sink.new) (K.faults sink.old) (K.faults sink.new) result }
{
    match stop {
        Stop::Usage => send(sink, USAGE, Status::Usage),
        Stop::Read => send(sink, b"read fault\n", Status::ReadFault),
        Stop::Rig => send(sink, b"rig fault\n", Status::RigFault),
        Stop::NoMemory => no_memory(sink),
        Stop::Script(fault) => match fault_line(alloc, &fault) {
            Ok(text) => send(sink, text.as_slice(), Status::Script),
            Err(_) => no_memory(sink),
        },
    }
}

/// Makes what is due, whole, and then writes it.
fn finish<S: Source, K: Sink, R: Rig>(
    alloc: Global,
    words: &[String],
    source: &mut S,
    sink: &mut K,
    rig: &mut R,
) -> Status
    ensures { Ends (record { words = map (λ w. string_bytes w) words.now; left = S.left source.old; read_before = S.faults source.old; read_now = S.faults source.new; rig_before = R.faults rig.old; rig_now = R.faults rig.new; back = record { tells = R.tells rig.old; devices = λ m k. option_map (λ d. R.D.bytes d) (R.given rig.new m k) } }) (K.written sink.old) (K.written sink.new) (K.faults sink.old) (K.faults sink.new) result }
{
    match outcome(alloc, words, source, rig) {
        Ok(due) => send(sink, due.text.as_slice(), due.status),
        Err(stop) => send_stop(alloc, sink, stop),
    }
}

/// Does all that the program does: reads the script of the source, replays it or prints its definitions, and writes what
/// is due to the sink. `words` are the words after the program's name. It always returns; all that it has to say goes to
/// the sink, made whole before its first byte is written. The devices of the group are those of the rig, which is given
/// them back.
///
/// - `ends`: with each status comes its cause, and what was written. Finished and Stuck: the bytes read are a script;
///   its group ran from new, by the picks of its schedule or of the seed, to a state in which no actor's step moves, and
///   which keeps all laws; what was written is the report of that state. ReadFault, WriteFault and RigFault come only
///   where the count of faults of the source, the sink or the rig rose.
/// - `usage`: where the words ask for nothing, the usage is written, unless memory was wanting or a write failed.
/// - `ran`: where they ask for a replay and the bytes are a script, it is run to its end, with the same exceptions and
///   those of reads and of the rig.
/// - `checked`, `script`: likewise the definitions, and the first fault of bytes that are no script.
pub fn replay<S: Source, K: Sink, R: Rig>(
    alloc: Global,
    words: &[String],
    source: &mut S,
    sink: &mut K,
    rig: &mut R,
) -> Status
    ensures ends { Ends (record { words = map (λ w. string_bytes w) words.now; left = S.left source.old; read_before = S.faults source.old; read_now = S.faults source.new; rig_before = R.faults rig.old; rig_now = R.faults rig.new; back = record { tells = R.tells rig.old; devices = λ m k. option_map (λ d. R.D.bytes d) (R.given rig.new m k) } }) (K.written sink.old) (K.written sink.new) (K.faults sink.old) (K.faults sink.new) result }
    ensures usage { command_of (map (λ w. string_bytes w) words.now) ≡ None → IsUsage result }
    ensures ran { (seed : Option ℕ) → command_of (map (λ w. string_bytes w) words.now) ≡ Some (commands.Replay seed) → (all : List ℕ) (plan : Plan) →
        S.left source.old ≡ Some all → IsPlan (take read_limit all) plan → HasRun result }
    ensures checked { command_of (map (λ w. string_bytes w) words.now) ≡ Some commands.Check → (all : List ℕ) (plan : Plan) →
        S.left source.old ≡ Some all → IsPlan (take read_limit all) plan → IsUnlessFailed Status.Finished result }
    ensures script { IsAsked (map (λ w. string_bytes w) words.now) → (all : List ℕ) (fault : ScriptFault) →
        S.left source.old ≡ Some all → IsFirstFault (take read_limit all) fault → IsUnlessFailed Status.Script result }
{
    finish(alloc, words, source, sink, rig)
}
