//! The writer of a log.

ghost use Rattle.std.specs.Prelude.{◌≡◌, ◌<◌, ◌≤◌, ◌+◌, ◌-◌, ◌*◌, ◌/◌, ◌%◌, ◌^◌, ◌++◌, [], ◌∷◌, ℕ, List, true, false, None, Ok, Err, Some, length, is_ok, nat_lt, IfOk, OnOk, OnErr, IsSome, if◌then◌else◌};
ghost use Rattle.qsg_num.specs.Faults.{HasCause};
ghost use Rattle.qsg_disk.specs.Byte.{Byte};
ghost use Rattle.qsg_logpage.specs.Page.{page_at};
ghost use Rattle.qsg_logpage.specs.Reserved.{besides, total, pages_for};
ghost use Rattle.qsg_logpage.specs.Log.{LogState, IsTied, IsAsked, AreWhole, advanced, made_safe, pages_written, step_of, in_hand_of, has_run, free, IsHeld};

use crate::gate::shut_gate;
use crate::lap::write_body;
use crate::step::{InHand, LogStep, Phase};
use crate::table::Table;
use qsg_disk::{Disk, Failed};
use qsg_num::{PAGE_BYTES, PAGE_NUMBERS, PageNo, Pages, UnitName};
use std::marker::Model;

/// A log has too few free pages for a unit or backup.
#[derive(Clone, Copy, Debug, PartialEq, Eq)]
pub struct NoLog {
    /// Pages that it needs.
    pub need: u32,
    /// Pages that are free for it.
    pub free: u32,
}

/// The pages of a unit or of a batch of a backup that are being written, from place `at` on.
#[derive(Drop)]
struct Run {
    unit: UnitName,
    pages: Pages,
    at: usize,
    phase: Phase,
}

/// Writes the pages of a log in order. Page n of a log of P pages stands at position `n mod P`, with lap
/// `n div P`. A page of lap 0 takes four steps: write the body, sync, write the gate as 1, sync. A page of a
/// later lap takes six: make the gate 0, sync, and these four. No call takes memory.
#[derive(Drop)]
pub struct LogWriter {
    size: u32,
    next: PageNo,
    table: Table,
    run: Option<Run>,
}

impl Model for LogWriter {
    ghost use Rattle.qsg_logpage.specs.Log.{LogState};

    ghost Value = { LogState };

    ghost use Rattle.qsg_logpage.specs.Writer.{state_of, IsWriter};

    ghost view = { state_of };

    ghost invariant = { IsWriter };
}

impl LogWriter {
    /// A writer of a log of `size` pages that writes page `next` next. It has no run in hand and no reservation.
    pub fn new(size: u32, next: PageNo) -> LogWriter
        requires some { 0 < size }
        requires next { next.number ≤ PAGE_NUMBERS }
        ensures { result ≡ record { size = size; next = next.number; reserved = []; hand = None } }
    {
        LogWriter {
            size,
            next,
            table: Table::new(),
            run: None,
        }
    }

    /// The pages that are free for a unit.
    fn free_for(&self, unit: UnitName, keep: PageNo) -> u32
        requires { keep.number ≤ self.now.next }
        ensures { result ≡ free unit keep.number self.now }
    {
        let others = self.table.others(unit);
        let written = self.next.number - keep.number;
        let in_log = self.size.saturating_sub(written).saturating_sub(others);
        let in_numbers = (PAGE_NUMBERS - self.next.number).saturating_sub(others);
        in_log.min(in_numbers)
    }

    /// Makes `need` pages the reservation of a unit or backup, in place of what it had. `keep` is the first page
    /// that may not be written over. NoLog comes exactly where `need` is above what is free for it, and changes
    /// nothing.
    pub fn reserve(&mut self, unit: UnitName, need: u32, keep: PageNo) -> Result<(), NoLog>
        requires idle { has_run unit self.old ≡ false }
        requires few { length (besides unit self.old.reserved) < 8 }
        requires keep { keep.number ≤ self.old.next }
        ensures answer { result ≡ (if nat_lt (free unit keep.number self.old) need then Err (record { need = need; free = free unit keep.number self.old }) else Ok (record {})) }
        ensures reserved { OnOk result (self.new ≡ record self.old { reserved = besides unit self.old.reserved ++ record { unit = unit; pages = need } ∷ [] }) }
        ensures refused { OnErr result (self.new ≡ self.old) }
        ensures tied { (bytes : List Byte) → IsTied keep.number self.old bytes → IsTied keep.number self.new bytes }
    {
        let free = self.free_for(unit, keep);
        if need > free {
            return Err(NoLog { need, free });
        }
        self.table.set(unit, need);
        Ok(())
    }

    /// Drops the reservation of a unit or backup.
    pub fn release(&mut self, unit: UnitName)
        requires idle { has_run unit self.old ≡ false }
        ensures released { self.new ≡ record self.old { reserved = besides unit self.old.reserved } }
        ensures tied { (keep : ℕ) (bytes : List Byte) → IsTied keep self.old bytes → IsTied keep self.new bytes }
    {
        self.table.remove(unit);
    }

    /// Takes a run in hand. Its pages have lap 0; each is written with its own.
    pub fn begin(&mut self, unit: UnitName, run: Pages)
        requires idle { self.old.hand ≡ None }
        requires some { 0 < length run }
        requires fits { length run ≤ pages_for unit self.old.reserved }
        ensures begun { self.new ≡ record self.old { hand = Some (record { unit = unit; pages = run; phase = Phase.Fresh }) } }
        ensures tied { (keep : ℕ) (bytes : List Byte) → IsTied keep self.old bytes → IsTied keep self.new bytes }
    {
        self.run = Some(Run {
            unit,
            pages: run,
            at: 0,
            phase: Phase::Fresh,
        });
    }

    /// The page that is being written; None exactly where no run is in hand.
    pub fn in_hand(&self) -> Option<InHand>
        ensures value { result ≡ in_hand_of self.now }
        ensures some { 0 < self.now.size }
        ensures held { IsHeld self.now }
    {
        let run = self.run.as_ref()?;
        Some(InHand {
            page: self.next,
            last: run.pages.len() - run.at == 1,
            body_safe: matches!(run.phase, Phase::BodySafe | Phase::GateWritten),
        })
    }

    /// The device call of the next step.
    fn ask<D: Disk>(&self, device: &mut D) -> Result<(), Failed>
        requires in_hand { IsSome self.now.hand }
        requires room { 4096 * self.now.size ≤ D.extent device.old }
        ensures told { D.tells device.new ≡ D.tells device.old }
        ensures extent { D.extent device.new ≡ D.extent device.old }
        ensures cause { HasCause (D.faults device.old) (D.faults device.new) result }
        ensures asked { D.tells device.old ≡ true → (keep : ℕ) → IsTied keep self.now (D.bytes device.old) → IsAsked keep self.now result (D.bytes device.old) (D.bytes device.new) }
        ensures made { D.tells device.old ≡ true → (keep : ℕ) → IsTied keep self.now (D.bytes device.old) → OnOk result (AreWhole (self.now.next / self.now.size) (made_safe self.now) (page_at (D.bytes device.new) self.now.size self.now.next)) }
    {
        let Some(run) = &self.run else {
            return Ok(());
        };
        let at = PAGE_BYTES * (self.next.number % self.size);
        let lap = self.next.number / self.size;
        match run.phase {
            Phase::Fresh => {
                if lap == 0 {
                    write_body(device, at + 1, run.pages.page(run.at), lap)
                } else {
                    shut_gate(device, at)
                }
            }
            Phase::GateShut => device.sync(),
            Phase::ShutSafe => write_body(device, at + 1, run.pages.page(run.at), lap),
            Phase::BodyWritten => device.sync(),
            Phase::BodySafe => device.write(at, &[1]),
            Phase::GateWritten => device.sync(),
        }
    }

    /// Goes on after the device call succeeded.
    fn advance(&mut self) -> LogStep
        requires in_hand { IsSome self.old.hand }
        ensures advanced { self.new ≡ advanced self.old }
        ensures step { step_of self.old ≡ Some result }
    {
        let lap = self.next.number / self.size;
        match &mut self.run {
            None => LogStep::BodyWritten,
            Some(run) => match run.phase {
                Phase::Fresh => {
                    if lap == 0 {
                        run.phase = Phase::BodyWritten;
                        LogStep::BodyWritten
                    } else {
                        run.phase = Phase::GateShut;
                        LogStep::GateShut
                    }
                }
                Phase::GateShut => {
                    run.phase = Phase::ShutSafe;
                    LogStep::ShutSafe
                }
                Phase::ShutSafe => {
                    run.phase = Phase::BodyWritten;
                    LogStep::BodyWritten
                }
                Phase::BodyWritten => {
                    run.phase = Phase::BodySafe;
                    LogStep::BodySafe
                }
                Phase::BodySafe => {
                    run.phase = Phase::GateWritten;
                    LogStep::GateWritten
                }
                Phase::GateWritten => {
                    let page = self.next;
                    let left = run.pages.len() - run.at;
                    self.next.number += 1;
                    self.table.lower(run.unit);
                    if left == 1 {
                        self.run = None;
                        return LogStep::PageSafe(page);
                    }
                    run.at += 1;
                    run.phase = Phase::Fresh;
                    LogStep::PageSafe(page)
                }
            },
        }
    }

    /// Makes the next step of the page in hand, by one device call, or two where a gate is shut. A step that
    /// failed leaves the writer as it was, and may be made again. The last page that gets safe ends the run.
    pub fn next_step<D: Disk>(&mut self, device: &mut D) -> Result<LogStep, Failed>
        requires in_hand { IsSome self.old.hand }
        requires room { 4096 * self.old.size ≤ D.extent device.old }
        ensures told { D.tells device.new ≡ D.tells device.old }
        ensures extent { D.extent device.new ≡ D.extent device.old }
        ensures cause { HasCause (D.faults device.old) (D.faults device.new) result }
        ensures size { self.new.size ≡ self.old.size }
        ensures failed { OnErr result (self.new ≡ self.old) }
        ensures advanced { OnOk result (self.new ≡ advanced self.old) }
        ensures step { IfOk result (λ step. step_of self.old ≡ Some step) }
        ensures tied { D.tells device.old ≡ true → (keep : ℕ) → IsTied keep self.old (D.bytes device.old) → IsTied keep self.new (D.bytes device.new) }
        ensures earlier { D.tells device.old ≡ true → (keep : ℕ) → IsTied keep self.old (D.bytes device.old)
            → (k : ℕ) → keep ≤ k → k < self.old.next → page_at (D.bytes device.new) self.old.size k ≡ page_at (D.bytes device.old) self.old.size k }
        // The pages that are written are those that were, and the one that this step makes safe.
        ensures pages { D.tells device.old ≡ true → (keep : ℕ) → IsTied keep self.old (D.bytes device.old)
            → OnOk result (pages_written keep self.new (D.bytes device.new) ≡ pages_written keep self.old (D.bytes device.old) ++ made_safe self.old) }
    {
        self.ask(device)?;
        Ok(self.advance())
    }
}
