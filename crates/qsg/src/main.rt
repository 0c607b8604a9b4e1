//! The program: replays a script of queue commands from standard input, and prints the report.
#![tactic(auto)]

use qsg_disk_mem::MemRig;
use qsg_io::{StdSink, StdSource};
use qsg_run::{no_memory, replay};
use std::alloc::AllocError;
use std::env::{self, Env};
use std::io;
use std::process::ExitCode;

/// The words after the program's name. Where they are no text there are none, which is no command either.
fn words(rt: &(impl Env + AllocGlobal)) -> Result<Vec<String>, AllocError> {
    let mut words = Vec::new(rt.alloc());
    let Ok(args) = env::args(rt) else {
        return Ok(words);
    };
    for word in args.skip(1) {
        words.push(word)?;
    }
    Ok(words)
}

/// The words after the program's name, and a rig that makes devices in memory, no call of which fails.
fn outside(rt: &(impl Env + AllocGlobal)) -> Result<(Vec<String>, MemRig), AllocError> {
    let rig = MemRig::new(rt.alloc(), Vec::new(rt.alloc()), Vec::new(rt.alloc()))?;
    Ok((words(rt)?, rig))
}

fn main(rt: HostRuntime) -> ExitCode {
    let mut source = StdSource::new(rt.reader());
    let mut sink = StdSink::new(io::writer(&rt));
    let status = match outside(&rt) {
        Ok((words, mut rig)) => replay(rt.alloc(), &words, &mut source, &mut sink, &mut rig),
        Err(_) => no_memory(&mut sink),
    };
    ExitCode::from(status.code())
}
