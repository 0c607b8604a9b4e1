//! Whole reports, scripts at fault, and calls whose outside fails.

ghost use Rattle.std.specs.Prelude.{◌≡◌, None, IfOk, length};

use super::*;
use qsg_disk::{Kind, Rig};
use qsg_disk_mem::{BlindRig, MemRig};
use qsg_io::{Failed, MemSink, MemSource, Sink};
use qsg_num::{Bytes, Member};
use std::alloc::Global;
use std::test::*;

/// A group of one member, one structure and one queue.
const HEAD: &str =
    "GROUP QSG1\nMEMBER QM1\nDEFINE CFSTRUCT(APP1) CFLEVEL(5) OFFLOAD(SMDS) DSGROUP('QSG1.*.APP1')\nDEFINE QLOCAL(Q1) QSGDISP(SHARED) CFSTRUCT(APP1)\n";

const HELLO: &str = "TASK QM1 1\nPUT Q1 BODY('hello')\nCOMMIT\nGET Q1\nCOMMIT\nEND\n";

const HELLO_REPORT: &str =
    "group QSG1\ntask QM1 1\n1 PUT OK 0.1 inside\n2 COMMIT OK QM1/1/1 1\n3 GET OK 0.1 pri 0 pers 0 msgid - correlid - body 5 68656c6c6f\n4 COMMIT OK QM1/1/2 1\nunit QM1/1/1 put 0.1\nunit QM1/1/2 got 0.1\nstructure APP1 active epoch 0 used 0 of 65536\nqueue Q1 depth 0\ndataset QM1 APP1 used 0 of 64\nlog QM1 pages 2 of 8192\nmember QM1 up 1\nfinished\n";

/// A member that crashes when its unit's last page is whole, and starts again.
const CRASHED: &str =
    "TASK QM1 1\nPUT Q1 BODY('a')\nCOMMIT\nOPERATOR\nCRASH QM1\nSTART QM1\nSCHEDULE\nQM1 1 8\nOPERATOR 1\nEND\n";

const CRASHED_REPORT: &str =
    "group QSG1\ntask QM1 0\n1 RESOLVED QM1/1 1\ntask QM1 1\n1 PUT OK 0.1 inside\n2 COMMIT 2009\noperator\n1 CRASH OK\n2 START OK 2\nunit QM1/1/1 put 0.1\nfailed QM1/1 resolved QM1 1\nstructure APP1 active epoch 0 used 2 of 65536\nentry 0.1 Q1 pri 0 pers 0 visible inside 1\nqueue Q1 depth 1\ndataset QM1 APP1 used 0 of 64\nlog QM1 pages 1 of 8192\nmember QM1 up 2\nfinished\n";

const USAGE: &str = "usage: qsg replay [--seed N] / run / check / gen N / soak N\n";

/// A script that has these lines behind a head.
fn script(alloc: Global, head: &str, lines: &str) -> Result<Vec<u8>, Fail> {
    let mut bytes = Vec::from_slice(alloc, head.as_bytes())?;
    bytes.extend_from_slice(lines.as_bytes())?;
    Ok(bytes)
}

/// The words of a line, with blanks between them.
fn words(alloc: Global, line: &str) -> Result<Vec<String>, Fail> {
    let mut words = Vec::new(alloc);
    for word in line.split(' ').filter(|w| !w.is_empty()) {
        words.push(String::from_str(alloc, word)?)?;
    }
    Ok(words)
}

fn rig(alloc: Global) -> Result<MemRig, Fail> {
    Ok(MemRig::new(alloc, Vec::new(alloc), Vec::new(alloc))?)
}

/// How a call of these words ends over a script and a rig, and what it writes.
fn called_over<R: Rig>(
    alloc: Global,
    line: &str,
    bytes: Vec<u8>,
    rig: &mut R,
) -> Result<(Status, MemSink), Fail> {
    let mut source = MemSource::new(bytes, Vec::new(alloc));
    let mut sink = MemSink::new(alloc, 300_000, Vec::new(alloc))?;
    let words = words(alloc, line)?;
    let ended = replay(alloc, &words, &mut source, &mut sink, rig);
    Ok((ended, sink))
}

/// The same over devices in memory of which no call fails.
fn called(alloc: Global, line: &str, bytes: Vec<u8>) -> Result<(Status, MemSink), Fail> {
    called_over(alloc, line, bytes, &mut rig(alloc)?)
}

#[test]
fn whole_reports(rt: HostRuntime) -> Result<(), Fail> {
    for (head, lines, line, text) in [
        (HEAD, HELLO, "replay", HELLO_REPORT),
        (HEAD, HELLO, "replay --seed 7", HELLO_REPORT),
        (HEAD, CRASHED, "replay", CRASHED_REPORT),
        ("GROUP QSG1\n", "END\n", "replay", "group QSG1\nfinished\n"),
        (
            HEAD,
            "END\n",
            "check",
            "cfstruct APP1 recover YES dsblock 262144 rules 70/32768 80/4096 90/0 elements 65536 blocks 64\nqueue Q1 structure APP1 put ENABLED get ENABLED pri 0 pers NO order PRIORITY depth 999999999 length 4194304\n",
        ),
    ] {
        let (ended, sink) = called(rt.alloc(), line, script(rt.alloc(), head, lines)?)?;
        assert_eq!(rt; ended, Status::Finished, "{lines}");
        assert_eq!(rt; sink.written(), text.as_bytes(), "{lines}");
    }
    Ok(())
}

/// Two members, two structures, and queues of each kind.
const GROUP_OF_TWO: &str =
    "GROUP QSG1\nMEMBER QM1\nMEMBER QM2\nDEFINE CFSTRUCT(APP1) CFLEVEL(5) OFFLOAD(SMDS) DSGROUP('QSG1.*.APP1')\nDEFINE CFSTRUCT(APP2) CFLEVEL(5) OFFLOAD(SMDS) DSGROUP('QSG1.*.APP2') RECOVER(NO)\nDEFINE QLOCAL(Q1) QSGDISP(SHARED) CFSTRUCT(APP1)\nDEFINE QLOCAL(Q2) QSGDISP(SHARED) CFSTRUCT(APP2) MSGDLVSQ(FIFO) MAXDEPTH(2) MAXMSGL(4)\nDEFINE QLOCAL(Q3) QSGDISP(SHARED) CFSTRUCT(APP1) PUT(DISABLED)\nDEFINE QLOCAL(Q4) QSGDISP(SHARED) CFSTRUCT(APP1) GET(DISABLED)\n";

/// One member with a log of two pages, and a structure of forty elements.
const GROUP_OF_ONE: &str =
    "GROUP QSG1\nMEMBER QM1 LOG(2)\nDEFINE CFSTRUCT(APP1) CFLEVEL(5) OFFLOAD(SMDS) DSGROUP('QSG1.*.APP1')\nDEFINE QLOCAL(Q1) QSGDISP(SHARED) CFSTRUCT(APP1)\nFACILITY APP1 ELEMENTS(40)\n";

#[test]
fn groups_at_work(rt: HostRuntime) -> Result<(), Fail> {
    for (head, lines, status, text) in [
        // units over two structures, orders of delivery, and refusals
        (
            GROUP_OF_TWO,
            "TASK QM1 1\nPUT Q1 BODY('low') PRI(1)\nPUT Q1 BODY('high') PRI(9)\nPUT Q2 BODY('old') PRI(1)\nPUT Q2 BODY('new') PRI(9)\nPUT Q2 BODY('c')\nPUT Q2 BODY('large')\nPUT Q2 BODY('p') PERS(1)\nPUT Q3 BODY('x')\nGET Q4\nPUT Q9\nGET Q1\nCOMMIT\nTASK QM2 1\nWAIT QM1 1 12\nGET Q1\nGET Q1\nGET Q2\nGET Q2\nGET Q2\nBACKOUT\nGET Q2\nCOMMIT\nBACKUP CFSTRUCT(APP1)\nEND\n",
            Status::Finished,
            "group QSG1\ntask QM1 1\n1 PUT OK 0.1 inside\n2 PUT OK 0.2 inside\n3 PUT OK 0.1 inside\n4 PUT OK 0.2 inside\n5 PUT 2053 depth 2\n6 PUT 2030\n7 PUT 2048\n8 PUT 2051\n9 GET 2016\n10 PUT 2085\n11 GET 2033\n12 COMMIT OK QM1/1/1 4\ntask QM2 1\n1 WAIT OK\n2 GET OK 0.2 pri 9 pers 0 msgid - correlid - body 4 68696768\n3 GET OK 0.1 pri 1 pers 0 msgid - correlid - body 3 6c6f77\n4 GET OK 0.1 pri 1 pers 0 msgid - correlid - body 3 6f6c64\n5 GET OK 0.2 pri 9 pers 0 msgid - correlid - body 3 6e6577\n6 GET 2033\n7 BACKOUT OK QM2/1/1 4\n8 GET OK 0.1 pri 1 pers 0 msgid - correlid - body 3 6f6c64\n9 COMMIT OK QM2/1/2 1\n10 BACKUP NOTYET\nunit QM1/1/1 put 0.1 put 0.2 put 0.1 put 0.2\nunit QM2/1/2 got 0.1\nstructure APP1 active epoch 0 used 4 of 65536\nstructure APP2 active epoch 0 used 2 of 65536\nentry 0.1 Q1 pri 1 pers 0 visible inside 3\nentry 0.2 Q1 pri 9 pers 0 visible inside 4\nentry 0.2 Q2 pri 9 pers 0 visible inside 3\nqueue Q1 depth 2\nqueue Q2 depth 1\nqueue Q3 depth 0\nqueue Q4 depth 0\ndataset QM1 APP1 used 0 of 64\ndataset QM1 APP2 used 0 of 64\ndataset QM2 APP1 used 0 of 64\ndataset QM2 APP2 used 0 of 64\nlog QM1 pages 1 of 8192\nlog QM2 pages 1 of 8192\nmember QM1 up 1\nmember QM2 up 1\nfinished\n",
        ),
        // a structure and a log that are full
        (
            GROUP_OF_ONE,
            "TASK QM1 1\nPUT Q1 SIZE(8081) PERS(1)\nPUT Q1 SIZE(8080) PERS(1)\nCOMMIT\nPUT Q1 BODY('one more')\nPUT Q1 SIZE(1793)\nCOMMIT\nEND\n",
            Status::Finished,
            "group QSG1\ntask QM1 1\n1 PUT NOLOG need 3 free 2\n2 PUT OK 0.1 inside\n3 COMMIT OK QM1/1/1 1\n4 PUT NOLOG need 1 free 0\n5 PUT NOLOG need 1 free 0\n6 COMMIT OK - 0\nunit QM1/1/1 put 0.1\nstructure APP1 active epoch 0 used 33 of 40\nentry 0.1 Q1 pri 0 pers 1 visible inside 8080\nqueue Q1 depth 1\ndataset QM1 APP1 used 0 of 64\nlog QM1 pages 2 of 2\nmember QM1 up 1\nfinished\n",
        ),
        // no elements for a body
        (
            GROUP_OF_ONE,
            "TASK QM1 1\nPUT Q1 SIZE(9985)\nPUT Q1 SIZE(9984)\nPUT Q1\nCOMMIT\nEND\n",
            Status::Finished,
            "group QSG1\ntask QM1 1\n1 PUT 2192 structure need 41 free 40\n2 PUT OK 0.1 inside\n3 PUT 2192 structure need 1 free 0\n4 COMMIT OK QM1/1/1 1\nunit QM1/1/1 put 0.1\nstructure APP1 active epoch 0 used 40 of 40\nentry 0.1 Q1 pri 0 pers 0 visible inside 9984\nqueue Q1 depth 1\ndataset QM1 APP1 used 0 of 64\nlog QM1 pages 1 of 2\nmember QM1 up 1\nfinished\n",
        ),
        // a task behind the latch of another, and one that waits for ever
        (
            GROUP_OF_ONE,
            "TASK QM1 1\nPUT Q1 BODY('a')\nCOMMIT\nTASK QM1 2\nPUT Q1 BODY('b')\nCOMMIT\nWAIT QM1 1 3\nSCHEDULE\nQM1 1 5\nQM1 2 6\nEND\n",
            Status::Stuck,
            "group QSG1\ntask QM1 1\n1 PUT OK 0.1 inside\n2 COMMIT OK QM1/1/1 1\ntask QM1 2\n1 PUT OK 0.2 inside\n2 COMMIT OK QM1/1/2 1\nunit QM1/1/1 put 0.1\nunit QM1/1/2 put 0.2\nstructure APP1 active epoch 0 used 4 of 40\nentry 0.1 Q1 pri 0 pers 0 visible inside 1\nentry 0.2 Q1 pri 0 pers 0 visible inside 1\nqueue Q1 depth 2\ndataset QM1 APP1 used 0 of 64\nlog QM1 pages 2 of 2\nmember QM1 up 1\nwaits QM1 2 until QM1 1 3\nstuck\n",
        ),
    ] {
        let (ended, sink) = called(rt.alloc(), "replay", script(rt.alloc(), head, lines)?)?;
        assert_eq!(rt; ended, status, "{lines}");
        assert_eq!(rt; sink.written(), text.as_bytes(), "{lines}");
    }
    Ok(())
}

/// Whether a text has this line.
fn has_line(text: &[u8], line: &str) -> bool {
    text.split(|byte| *byte == b'\n')
        .any(|found| found == line.as_bytes())
}

#[test]
fn a_unit_of_a_thousand(rt: HostRuntime) -> Result<(), Fail> {
    let mut bytes = script(rt.alloc(), HEAD, "TASK QM1 1\n")?;
    for _turn in 0..1_001u32 {
        bytes.extend_from_slice(b"PUT Q1\n")?;
    }
    bytes.extend_from_slice(b"COMMIT\nEND\n")?;
    let (ended, sink) = called(rt.alloc(), "replay", bytes)?;
    assert_eq!(rt; ended, Status::Finished);
    for line in [
        "1000 PUT OK 0.1000 inside",
        "1001 PUT 2024",
        "1002 COMMIT OK QM1/1/1 1000",
    ] {
        assert!(rt; has_line(sink.written(), line), "{line}");
    }
    Ok(())
}

#[test]
fn scripts_at_fault(rt: HostRuntime) -> Result<(), Fail> {
    for (bytes, text) in [
        ("", "script line 1: NoEnd\n"),
        ("MEMBER QM1\n", "script line 1: NoGroup\n"),
        ("GROUP QSG1\n", "script line 2: NoEnd\n"),
        ("GROUP QSG1\nEN\n", "script line 2: UnknownWord EN\n"),
        (
            "GROUP QSG1\nDEFINE CFSTRUCT(APP1) CFLEVEL(4) OFFLOAD(SMDS) DSGROUP('A.*')\n",
            "script line 2: LevelNot5\n",
        ),
        (
            "GROUP QSG1\nDEFINE CFSTRUCT(APP1) CFLEVEL(5) OFFLOAD(SMDS) DSGROUP('A.*.*')\n",
            "script line 2: TwoAsterisks\n",
        ),
        (
            "GROUP QSG1\nDEFINE CFSTRUCT(APP1) CFLEVEL(5) OFFLOAD(SMDS) DSGROUP('A.*')\nDEFINE CFSTRUCT(APP1) CFLEVEL(5) OFFLOAD(SMDS) DSGROUP('A.*')\n",
            "script line 3: AlreadyDefined\n",
        ),
    ] {
        let (ended, sink) = called(rt.alloc(), "replay", script(rt.alloc(), bytes, "")?)?;
        assert_eq!(rt; ended, Status::Script, "{bytes}");
        assert_eq!(rt; sink.written(), text.as_bytes(), "{bytes}");
    }
    let mut bytes = script(rt.alloc(), "GROUP QSG1\n*", "")?;
    bytes.resize(11 + 4_097, b'x')?;
    let (ended, sink) = called(rt.alloc(), "replay", bytes)?;
    assert_eq!(rt;
        (ended, sink.written()),
        (Status::Script, b"script line 2: LongLine\n".as_slice())
    );
    let more = vec![in rt.alloc(); b'x'; 4_194_305]?;
    let (ended, sink) = called(rt.alloc(), "replay", more)?;
    assert_eq!(rt;
        (ended, sink.written()),
        (
            Status::Script,
            b"script line 0: TooLarge 4194304\n".as_slice()
        )
    );
    Ok(())
}

#[test]
fn wrong_words(rt: HostRuntime) -> Result<(), Fail> {
    for line in [
        "",
        "replay 5",
        "gen",
        "run --seed 1",
        "gen 4294967296",
        "check --seed 1",
    ] {
        let (ended, sink) = called(rt.alloc(), line, script(rt.alloc(), HEAD, HELLO)?)?;
        assert_eq!(rt;
            (ended, sink.written()),
            (Status::Usage, USAGE.as_bytes()),
            "{line}"
        );
    }
    Ok(())
}

#[test]
fn each_read_fails(rt: HostRuntime) -> Result<(), Fail> {
    for failing in 1..=3u32 {
        let failing_calls = vec![in rt.alloc(); failing]?;
        let mut source = MemSource::new(script(rt.alloc(), HEAD, HELLO)?, failing_calls);
        let mut sink = MemSink::new(rt.alloc(), 100_000, Vec::new(rt.alloc()))?;
        let words = words(rt.alloc(), "replay")?;
        let mut rig = rig(rt.alloc())?;
        let ended = replay(rt.alloc(), &words, &mut source, &mut sink, &mut rig);
        if failing <= 2 {
            assert_eq!(rt;
                (ended, sink.written()),
                (Status::ReadFault, b"read fault\n".as_slice())
            );
        } else {
            assert_eq!(rt; ended, Status::Finished);
        }
    }
    Ok(())
}

/// Takes at most 50 bytes a call.
#[derive(Drop)]
struct Narrow {
    inner: MemSink,
}

impl Sink for Narrow {
    ghost written = { λ _. None };

    ghost faults = { λ s. s.inner.faults };

    fn write(&mut self, piece: &[u8]) -> Result<usize, Failed> {
        let count = piece.len().min(50);
        self.inner.write(&piece[..count])
    }
}

#[test]
fn each_write_fails(rt: HostRuntime) -> Result<(), Fail> {
    let report = HELLO_REPORT.as_bytes();
    for failing in 1..=8u32 {
        let failing_calls = vec![in rt.alloc(); failing]?;
        let mut source = MemSource::new(script(rt.alloc(), HEAD, HELLO)?, Vec::new(rt.alloc()));
        let inner = MemSink::new(rt.alloc(), 100_000, failing_calls)?;
        let mut sink = Narrow { inner };
        let words = words(rt.alloc(), "replay")?;
        let mut rig = rig(rt.alloc())?;
        let ended = replay(rt.alloc(), &words, &mut source, &mut sink, &mut rig);
        let front = (failing as usize - 1) * 50;
        if front < report.len() {
            assert_eq!(rt;
                (ended, sink.inner.written()),
                (Status::WriteFault, &report[..front])
            );
        } else {
            assert_eq!(rt; (ended, sink.inner.written()), (Status::Finished, report));
        }
    }
    Ok(())
}

#[test]
fn a_rig_fails(rt: HostRuntime) -> Result<(), Fail> {
    let mut source = MemSource::new(script(rt.alloc(), HEAD, HELLO)?, Vec::new(rt.alloc()));
    let mut sink = MemSink::new(rt.alloc(), 100_000, Vec::new(rt.alloc()))?;
    let words = words(rt.alloc(), "replay")?;
    let mut rig = MemRig::new(rt.alloc(), Vec::new(rt.alloc()), vec![in rt.alloc(); 1]?)?;
    let ended = replay(rt.alloc(), &words, &mut source, &mut sink, &mut rig);
    assert_eq!(rt;
        (ended, sink.written()),
        (Status::RigFault, b"rig fault\n".as_slice())
    );
    Ok(())
}

/// The definitions of one structure and one queue.
const OBJECTS: &str =
    "DEFINE CFSTRUCT(APP1) CFLEVEL(5) OFFLOAD(SMDS) DSGROUP('QSG1.*.APP1')\nDEFINE QLOCAL(Q1) QSGDISP(SHARED) CFSTRUCT(APP1)\n";

/// The script of a group of QM1 and QM2 with small logs; where a call on the log of QM1 fails, its pick is this one.
fn two_members(alloc: Global, pick: u64, lines: &str) -> Result<String, Fail> {
    Ok(format!(in alloc;
        "GROUP QSG1\nMEMBER QM1 LOG(16) PICK({pick})\nMEMBER QM2 LOG(16)\n{OBJECTS}{lines}END\n"
    )?)
}

/// What becomes of a unit of two puts whose member fails behind so many steps of its task. The puts take three steps
/// each, and COMMIT one for the latch, four for its page, one for each mark, and one for the low page.
#[derive(Drop)]
struct Crashed {
    steps: u32,
    pick: u64,
}

impl Crashed {
    /// The gate of the unit's page is safe, or the cut left it open.
    fn is_committed(&self) -> bool {
        self.steps >= 11 || (self.steps == 10 && self.pick != 0)
    }

    /// The marks that stand when the member fails.
    fn marks(&self) -> u32 {
        match self.steps {
            0..=2 => 0,
            3..=5 => 1,
            6..=11 => 2,
            12 => 1,
            _ => 0,
        }
    }

    /// All directives are answered where COMMIT was in progress, or had ended.
    fn status(&self) -> Status {
        if self.steps >= 7 {
            Status::Finished
        } else {
            Status::Stuck
        }
    }

    /// How the run ends, and its report. QM2 is up, and settles the marks.
    fn run(&self, alloc: Global) -> Result<(Status, MemSink), Fail> {
        let lines = format!(in alloc;
            "TASK QM1 1\nPUT Q1 BODY('a')\nPUT Q1 BODY('b')\nCOMMIT\nOPERATOR\nCRASH QM1 PICK({})\nSCHEDULE\nQM1 1 {}\nOPERATOR 1\n",
            self.pick, self.steps
        )?;
        let text = two_members(alloc, 0, lines.as_str())?;
        called(alloc, "replay", Vec::from_slice(alloc, text.as_bytes())?)
    }

    /// The line of the failed incarnation, with the marks that QM2 took off.
    fn failed(&self, alloc: Global) -> Result<String, Fail> {
        if self.marks() == 0 {
            return Ok(String::from_str(alloc, "failed QM1/1 resolved")?);
        }
        Ok(format!(in alloc; "failed QM1/1 resolved QM2 {}", self.marks())?)
    }

    /// Lines that the report has to have.
    fn lines(&self, alloc: Global) -> Result<Vec<String>, Fail> {
        let (depth, pages) = if self.is_committed() { (2, 1) } else { (0, 0) };
        let resolved = format!(in alloc; "1 RESOLVED QM1/1 {}", self.marks())?;
        let depth = format!(in alloc; "queue Q1 depth {depth}")?;
        let pages = format!(in alloc; "log QM1 pages {pages} of 16")?;
        let down = String::from_str(alloc, "member QM1 down 1")?;
        Ok(vec![in alloc; resolved, self.failed(alloc)?, depth, pages, down]?)
    }
}

/// A member that fails behind each step of a unit's life, with each kind of pick, and a peer that settles its marks.
#[test]
fn a_crash_behind_every_step(rt: HostRuntime) -> Result<(), Fail> {
    for steps in 0..=16u32 {
        for pick in [0u64, 1, 9] {
            let crash = Crashed { steps, pick };
            let (ended, sink) = crash.run(rt.alloc())?;
            let has_unit = has_line(sink.written(), "unit QM1/1/1 put 0.1 put 0.2");
            assert_eq!(rt; ended, crash.status(), "{steps} {pick}");
            assert_eq!(rt; has_unit, crash.is_committed(), "{steps} {pick}");
            for line in crash.lines(rt.alloc())?.iter() {
                assert!(rt;
                    has_line(sink.written(), line.as_str()),
                    "{steps} {pick} {line}"
                );
            }
        }
    }
    Ok(())
}

/// How a run ends, and its report, where a call on the log of QM1 fails in its COMMIT, which ends the member. It starts
/// again. Whether the device was given back.
fn failed_in_call(alloc: Global, call: u32, pick: u64) -> Result<(Status, MemSink, bool), Fail> {
    let failing = vec![in alloc; (Member::One, Kind::Log, call)]?;
    let mut rig = MemRig::new(alloc, failing, Vec::new(alloc))?;
    let lines = "TASK QM1 1\nPUT Q1 BODY('hello')\nCOMMIT\nOPERATOR\nWAIT QM1 1 2\nSTART QM1\n";
    let text = two_members(alloc, pick, lines)?;
    let bytes = Vec::from_slice(alloc, text.as_bytes())?;
    let (ended, sink) = called_over(alloc, "replay", bytes, &mut rig)?;
    let given_back = rig.device_of(Member::One, Kind::Log).is_some();
    Ok((ended, sink, given_back))
}

/// The unit is committed where its page was safe but for the gate, and the pick leaves the gate open. A gate whose write
/// failed has its old value still, and is in doubt.
#[test]
fn a_log_fails_in_each_call(rt: HostRuntime) -> Result<(), Fail> {
    for pick in [0u64, 1, 9] {
        for (call, committed) in [(1u32, false), (2, false), (3, pick == 9), (4, pick != 0)] {
            let (ended, sink, given_back) = failed_in_call(rt.alloc(), call, pick)?;
            let has_unit = has_line(sink.written(), "unit QM1/1/1 put 0.1");
            assert_eq!(rt;
                (ended, given_back),
                (Status::Finished, true),
                "{call} {pick}"
            );
            assert_eq!(rt; has_unit, committed, "{call} {pick}");
            let depth = if committed {
                "queue Q1 depth 1"
            } else {
                "queue Q1 depth 0"
            };
            for line in [
                "2 COMMIT 2009",
                "2 START OK 2",
                "failed QM1/1 resolved QM2 1",
                depth,
            ] {
                assert!(rt; has_line(sink.written(), line), "{call} {pick} {line}");
            }
        }
    }
    Ok(())
}

#[test]
fn a_log_fails(rt: HostRuntime) -> Result<(), Fail> {
    let failing = vec![in rt.alloc(); (Member::One, Kind::Log, 4)]?;
    let mut rig = MemRig::new(rt.alloc(), failing, Vec::new(rt.alloc()))?;
    let bytes = script(rt.alloc(), HEAD, HELLO)?;
    let (ended, sink) = called_over(rt.alloc(), "replay", bytes, &mut rig)?;
    assert_eq!(rt; ended, Status::Stuck);
    assert_eq!(rt;
        sink.written(),
        b"group QSG1\ntask QM1 1\n1 PUT OK 0.1 inside\n2 COMMIT 2009\nfailed QM1/1 unresolved\nstructure APP1 active epoch 0 used 2 of 65536\nentry 0.1 Q1 pri 0 pers 0 put QM1/1/1 inside 5\nqueue Q1 depth 1\ndataset QM1 APP1 used - of 64\nlog QM1 pages 0 of 8192\nmember QM1 down 1\nwaits QM1 1 down\nstuck\n".as_slice()
    );
    assert!(rt; rig.device_of(Member::One, Kind::Log).is_some());
    Ok(())
}

#[test]
fn a_log_cannot_be_read(rt: HostRuntime) -> Result<(), Fail> {
    for (lines, text) in [
        // a peer gives up, and tries again once its own member comes up
        (
            "TASK QM1 1\nPUT Q1 BODY('a')\nOPERATOR\nCRASH QM1\nCRASH QM2\nSTART QM2\nSCHEDULE\nQM1 1 3\nOPERATOR 1\nQM2 0 3\nOPERATOR 1\n",
            "group QSG1\ntask QM1 1\n1 PUT OK 0.1 inside\ntask QM2 0\n1 GAVEUP QM1/1 device\n2 RESOLVED QM1/1 1\n3 RESOLVED QM2/1 0\noperator\n1 CRASH OK\n2 CRASH OK\n3 START OK 2\nfailed QM1/1 resolved QM2 1\nfailed QM2/1 resolved\nstructure APP1 active epoch 0 used 0 of 65536\nqueue Q1 depth 0\ndataset QM1 APP1 used - of 64\ndataset QM2 APP1 used 0 of 64\nlog QM1 pages 0 of 16\nlog QM2 pages 0 of 16\nmember QM1 down 1\nmember QM2 up 2\nfinished\n",
        ),
        // a START is refused, and uses no incarnation
        (
            "TASK QM1 1\nPUT Q1 BODY('a')\nOPERATOR\nCRASH QM1\nSTART QM1\nSTART QM1\nSCHEDULE\nQM1 1 3\nOPERATOR 8\n",
            "group QSG1\ntask QM1 0\n1 RESOLVED QM1/1 1\ntask QM1 1\n1 PUT OK 0.1 inside\ntask QM2 0\n1 RESOLVED QM1/1 0\noperator\n1 CRASH OK\n2 START LOGFAULT QM1 device\n3 START OK 2\nfailed QM1/1 resolved QM1 1\nstructure APP1 active epoch 0 used 0 of 65536\nqueue Q1 depth 0\ndataset QM1 APP1 used 0 of 64\ndataset QM2 APP1 used 0 of 64\nlog QM1 pages 0 of 16\nlog QM2 pages 0 of 16\nmember QM1 up 2\nmember QM2 up 1\nfinished\n",
        ),
    ] {
        let failing = vec![in rt.alloc(); (Member::One, Kind::Log, 1)]?;
        let mut rig = MemRig::new(rt.alloc(), failing, Vec::new(rt.alloc()))?;
        let script = two_members(rt.alloc(), 0, lines)?;
        let bytes = Vec::from_slice(rt.alloc(), script.as_bytes())?;
        let (ended, sink) = called_over(rt.alloc(), "replay", bytes, &mut rig)?;
        assert_eq!(rt; ended, Status::Finished, "{lines}");
        assert_eq!(rt; sink.written(), text.as_bytes(), "{lines}");
    }
    Ok(())
}

/// A page that begins with these bytes, and goes on with zeros.
fn page(alloc: Global, front: &[u8]) -> Result<Bytes, Fail>
    ensures { IfOk result (λ page. length page ≡ 4096) }
{
    let mut bytes = Vec::from_slice(alloc, front)?;
    bytes.resize(4_096, 0)?;
    Ok(Bytes::from_vec(bytes))
}

/// The report of a member that fails with an open unit and starts again, over logs whose every page reads as this one.
fn over_pages(alloc: Global, front: &[u8]) -> Result<(Status, MemSink), Fail> {
    let mut rig = BlindRig::new(page(alloc, front)?);
    let text = format!(in alloc;
        "GROUP QSG1\nMEMBER QM1 LOG(2)\nMEMBER QM2 LOG(2)\n{OBJECTS}TASK QM1 1\nPUT Q1 BODY('a')\nOPERATOR\nCRASH QM1\nSTART QM1\nSCHEDULE\nQM1 1 3\nOPERATOR 1\nEND\n"
    )?;
    called_over(
        alloc,
        "replay",
        Vec::from_slice(alloc, text.as_bytes())?,
        &mut rig,
    )
}

#[test]
fn logs_that_tell_nothing(rt: HostRuntime) -> Result<(), Fail> {
    // a version that is none, no bytes in use, and a record of a tag that is none
    for (front, why) in [
        (
            [1u8, 9, 0, 4, 0, 0, 0, 0, 1, 0, 1, 99].as_slice(),
            "page 0 at 0",
        ),
        ([1u8, 1, 0, 0].as_slice(), "page 0 at 2"),
        (
            [1u8, 1, 0, 4, 0, 0, 0, 0, 1, 0, 1, 99].as_slice(),
            "record 0 at 0",
        ),
    ] {
        let (ended, sink) = over_pages(rt.alloc(), front)?;
        let text = format!(in rt.alloc();
            "group QSG1\ntask QM1 1\n1 PUT OK 0.1 inside\ntask QM2 0\n1 GAVEUP QM1/1 {why}\noperator\n1 CRASH OK\n2 START LOGFAULT QM1 {why}\nfailed QM1/1 unresolved\nstructure APP1 active epoch 0 used 2 of 65536\nentry 0.1 Q1 pri 0 pers 0 put QM1/1/1 inside 1\nqueue Q1 depth 1\ndataset QM1 APP1 used - of 64\ndataset QM2 APP1 used 0 of 64\nlog QM1 pages 0 of 2\nlog QM2 pages 0 of 2\nmember QM1 down 1\nmember QM2 up 1\nfinished\n"
        )?;
        assert_eq!(rt; ended, Status::Finished, "{why}");
        assert_eq!(rt; sink.written(), text.as_bytes(), "{why}");
    }
    // a log that says that the unit is committed, which it isn't: each mark comes off as the log says
    let commit = [
        1u8, 1, 0, 13, 0, 0, 0, 0, 1, 0, 10, 3, 1, 0, 0, 0, 1, 0, 0, 0, 1,
    ];
    let (ended, sink) = over_pages(rt.alloc(), commit.as_slice())?;
    assert_eq!(rt; ended, Status::Finished);
    assert_eq!(rt;
        sink.written(),
        b"group QSG1\ntask QM1 0\n1 RESOLVED QM1/1 0\ntask QM1 1\n1 PUT OK 0.1 inside\ntask QM2 0\n1 RESOLVED QM1/1 1\noperator\n1 CRASH OK\n2 START OK 2\nfailed QM1/1 resolved QM2 1\nstructure APP1 active epoch 0 used 2 of 65536\nentry 0.1 Q1 pri 0 pers 0 visible inside 1\nqueue Q1 depth 1\ndataset QM1 APP1 used 0 of 64\ndataset QM2 APP1 used 0 of 64\nlog QM1 pages 2 of 2\nlog QM2 pages 0 of 2\nmember QM1 up 2\nmember QM2 up 1\nfinished\n".as_slice()
    );
    Ok(())
}

/// Three marks of a unit that is committed came off before its member failed. Its log reads as zeros, so its peers undo
/// the other three: they decide by the log, and not by the history.
#[test]
fn peers_decide_by_the_log(rt: HostRuntime) -> Result<(), Fail> {
    let mut rig = BlindRig::new(page(rt.alloc(), b"")?);
    let mut bytes = script(
        rt.alloc(),
        "GROUP QSG1\nMEMBER QM1 LOG(2)\nMEMBER QM2 LOG(2)\nMEMBER QM3 LOG(2)\n",
        OBJECTS,
    )?;
    bytes.extend_from_slice(b"TASK QM1 1\n")?;
    for _turn in 0..6u32 {
        bytes.extend_from_slice(b"PUT Q1 BODY('a') PERS(1)\n")?;
    }
    bytes.extend_from_slice(
        b"COMMIT\nOPERATOR\nCRASH QM1\nSCHEDULE\nQM1 1 26\nOPERATOR 1\nQM2 0 7\nQM3 0 7\nQM2 0 2\nEND\n",
    )?;
    let (ended, sink) = called_over(rt.alloc(), "replay", bytes, &mut rig)?;
    assert_eq!(rt; ended, Status::Finished);
    for line in [
        "7 COMMIT 2009",
        "unit QM1/1/1 put 0.1 put 0.2 put 0.3 put 0.4 put 0.5 put 0.6",
        "queue Q1 depth 3",
    ] {
        assert!(rt; has_line(sink.written(), line), "{line}");
    }
    Ok(())
}
