//! The summary of a run.

ghost use Rattle.std.specs.Prelude.{◌≡◌, ◌^◌, ◌<◌, ◌++◌, length, count_by, codes, OnOk, IfOk};
ghost use Rattle.std.specs.Fmt.{decimal};
ghost use Rattle.qsg_model.specs.History.{held};
ghost use Rattle.qsg_report.specs.Totals.{is_unit, is_lost, is_purged, is_kind, operations_in, operations, total_text, ending_text, summary_text};

use itoa::Buffer;
use qsg_answers::push_text;
use qsg_model::{History, Item, Op, held};
use qsg_num::{Bytes, StructNo};
use std::alloc::{AllocError, Global};

fn is_unit(item: &Item) -> bool
    ensures { result ≡ is_unit item.now }
{
    matches!(item, Item::Unit(..))
}

fn is_lost(item: &Item) -> bool
    ensures { result ≡ is_lost item.now }
{
    matches!(item, Item::Lost(_))
}

fn is_purged(item: &Item) -> bool
    ensures { result ≡ is_purged item.now }
{
    matches!(item, Item::Purged(_))
}

/// Whether an operation is a put, or else a get.
fn is_kind(put: bool, op: &Op) -> bool
    ensures { result ≡ is_kind put op.now }
{
    match op {
        Op::Put(_) => put,
        Op::Got(_) => !put,
    }
}

fn count_kind(put: bool, ops: &[(StructNo, Op)]) -> usize
    ensures { result ≡ count_by (λ o. is_kind put o.1) ops.now }
{
    ops.iter().filter(|o| is_kind(put, &o.1)).count()
}

/// The operations of that kind in an item.
fn operations_in(put: bool, item: &Item) -> usize
    ensures { result ≡ operations_in put item.now }
{
    match item {
        Item::Unit(_, ops) => count_kind(put, ops.as_slice()),
        Item::Lost(_) | Item::Purged(_) => 0,
    }
}

/// The operations of that kind in a history. Its type has room for more than any history has.
fn operations(put: bool, history: &[Item]) -> u128
    ensures { result ≡ operations put history.now }
{
    let mut count = 0u128;
    for item in history {
        count += operations_in(put, item) as u128;
    }
    count
}

/// A line: a name with a blank behind it, and a number.
fn push_total(out: &mut Vec<u8>, name: &[u8], number: u128) -> Result<(), AllocError>
    ensures { OnOk result (out.new.items ≡ out.old.items ++ total_text name.now number) }
{
    push_text(out, name)?;
    push_text(out, Buffer::new().format(number).as_bytes())?;
    push_text(out, b"\n")
}

/// How the run ended.
fn push_ending(out: &mut Vec<u8>, finished: bool) -> Result<(), AllocError>
    ensures { OnOk result (out.new.items ≡ out.old.items ++ ending_text finished) }
{
    if finished {
        push_text(out, b"finished\n")
    } else {
        push_text(out, b"stuck\n")
    }
}

fn count_units(history: &[Item]) -> usize
    ensures { result ≡ count_by is_unit history.now }
{
    history.iter().filter(|item| is_unit(item)).count()
}

fn count_lost(history: &[Item]) -> usize
    ensures { result ≡ count_by is_lost history.now }
{
    history.iter().filter(|item| is_lost(item)).count()
}

fn count_purged(history: &[Item]) -> usize
    ensures { result ≡ count_by is_purged history.now }
{
    history.iter().filter(|item| is_purged(item)).count()
}

/// The summary of a run: its units and their operations, the losses and purges, and the messages that are held in the
/// end. Its time grows with the square of the history's length.
#[tactic(auto, unfolding(crate::specs::Totals::summary_text))]
pub fn summary(alloc: Global, history: &History, finished: bool) -> Result<Bytes, AllocError>
    ensures { IfOk result (λ text. text ≡ summary_text history.now.items finished) }
{
    let items = history.as_slice();
    let mut out = Vec::new(alloc);
    push_total(&mut out, b"units ", count_units(items) as u128)?;
    push_total(&mut out, b"put ", operations(true, items))?;
    push_total(&mut out, b"got ", operations(false, items))?;
    push_total(&mut out, b"lost ", count_lost(items) as u128)?;
    push_total(&mut out, b"purged ", count_purged(items) as u128)?;
    push_total(&mut out, b"held ", held(alloc, history)?.len() as u128)?;
    push_ending(&mut out, finished)?;
    Ok(Bytes::from_vec(out))
}
