//! The messages that a history holds, as a list.

ghost use Rattle.std.specs.Prelude.{◌≡◌, ◌≤◌, length, position, List, ◌++◌, ◌∷◌, [], OnOk, IfOk, filter, not, nat_lt, ◌||◌, ◌&&◌};
ghost use Rattle.qsg_num.specs.Ids.{epoch_of};
ghost use Rattle.std.specs.List.{list_any, position_or_len};
ghost use Rattle.qsg_num.specs.declared.seats.StructNo.{StructNo};
ghost use Rattle.qsg_model.specs.declared.history.Op.{Op};
ghost use Rattle.qsg_model.specs.History.{key, key_before, has_key, put_by, got_by, puts, gots, without, add, add_all, is_of, is_added, held_after, held};

use crate::ends::{Ends, ends_of};
use crate::history::{Item, Op};
use crate::messages::Messages;
use crate::recorded::History;
use qsg_msg::Message;
use qsg_num::StructNo;
use std::alloc::{AllocError, Global};

/// The messages that a history holds, in order of structure and id. Each is a copy. It serves tests and summaries:
/// its time grows with the square of the history's length, and with that of what is held.
pub fn held(alloc: Global, history: &History) -> Result<Messages, AllocError>
    ensures { IfOk result (λ ms. ms ≡ held history.now.items) }
{
    let items = history.as_slice();
    let mut messages = Vec::new(alloc);
    for turn in 0..items.len() {
        hold(&items[..turn], &mut messages, &items[turn])?;
    }
    Ok(Messages::from_vec(messages))
}

/// What is held after one more item, behind those before it.
fn hold(before: &[Item], messages: &mut Vec<Message>, item: &Item) -> Result<(), AllocError>
    ensures { OnOk result (messages.new.items ≡ held_after before.now messages.old.items item.now) }
{
    match item {
        Item::Unit(_, ops) => {
            take_out(messages, ops.as_slice());
            add_puts(before, messages, ops.as_slice())
        }
        Item::Lost(lost) => {
            lose(messages, *lost);
            Ok(())
        }
        Item::Purged(purged) => {
            purge(messages, *purged);
            Ok(())
        }
    }
}

fn is_of(structure: StructNo, m: &Message) -> bool
    ensures { result ≡ is_of structure m.now }
{
    m.structure.get() == structure.get()
}

fn lose(messages: &mut Vec<Message>, structure: StructNo)
    ensures { messages.new.items ≡ filter (λ m. not (is_of structure m) || m.persistent) messages.old.items }
{
    messages.retain(|m| !is_of(structure, m) || m.persistent);
}

fn purge(messages: &mut Vec<Message>, structure: StructNo)
    ensures { messages.new.items ≡ filter (λ m. not (is_of structure m)) messages.old.items }
{
    messages.retain(|m| !is_of(structure, m));
}

/// Whether an operation got this message.
fn got(op: &(StructNo, Op), m: &Message) -> bool
    ensures { result ≡ has_key (got_by op.now.0 op.now.1) (key m.now) }
{
    match &op.1 {
        Op::Put(_) => false,
        Op::Got(id) => m.structure.get() == op.0.get() && m.id.number == id.number,
    }
}

fn is_got(ops: &[(StructNo, Op)], m: &Message) -> bool
    ensures { result ≡ list_any (λ w. has_key (got_by w.0 w.1) (key m.now)) ops.now }
{
    ops.iter().any(|op| got(op, m))
}

/// Takes out what the operations got.
fn take_out(messages: &mut Vec<Message>, ops: &[(StructNo, Op)])
    ensures { messages.new.items ≡ without (gots ops.now) messages.old.items }
{
    messages.retain(|m| !is_got(ops, m));
}

/// Adds what the operations put, except what isn't added any more after these items.
fn add_puts(
    before: &[Item],
    messages: &mut Vec<Message>,
    ops: &[(StructNo, Op)],
) -> Result<(), AllocError>
    ensures { OnOk result (messages.new.items ≡ add_all (filter (is_added before.now) (puts ops.now)) messages.old.items) }
{
    for op in ops {
        add_put(before, messages, &op.1)?;
    }
    Ok(())
}

fn add_put(before: &[Item], messages: &mut Vec<Message>, op: &Op) -> Result<(), AllocError>
    ensures { OnOk result (messages.new.items ≡ add_all (filter (is_added before.now) (put_by op.now)) messages.old.items) }
{
    match op {
        Op::Put(m) => {
            if is_added(before, m) {
                add(messages, copy(m)?)
            } else {
                Ok(())
            }
        }
        Op::Got(_) => Ok(()),
    }
}

fn copy(m: &Message) -> Result<Message, AllocError>
    ensures { IfOk result (λ c. c ≡ m.now) }
{
    m.clone()
}

fn is_kept(m: &Message, ends: Ends) -> bool
    ensures { result ≡ ((m.now.persistent || not (nat_lt (epoch_of m.now.id) ends.count)) && not (nat_lt (epoch_of m.now.id) ends.floor)) }
{
    let epoch = u64::from(m.id.epoch());
    (m.persistent || epoch >= ends.count) && epoch >= ends.floor
}

/// Whether a put is still added after these items.
fn is_added(before: &[Item], m: &Message) -> bool
    ensures { result ≡ is_added before.now m.now }
{
    let ends = ends_of(before, m);
    is_kept(m, ends)
}

/// Whether the first stands before the second, in order of structure and id.
fn comes_before(m: &Message, x: &Message) -> bool
    ensures { result ≡ key_before (key m.now) (key x.now) }
{
    m.structure.get() < x.structure.get()
        || (m.structure.get() == x.structure.get() && m.id.number < x.id.number)
}

fn first_behind(messages: &[Message], m: &Message) -> Option<usize>
    ensures { result ≡ position (λ x. key_before (key m.now) (key x)) messages.now }
{
    messages.iter().position(|x| comes_before(m, x))
}

fn place_of(messages: &[Message], m: &Message) -> usize
    ensures value { result ≡ position_or_len (λ x. key_before (key m.now) (key x)) messages.now }
    ensures bound { result ≤ length messages.now }
{
    first_behind(messages, m).unwrap_or(messages.len())
}

/// Adds a message in its place.
fn add(messages: &mut Vec<Message>, m: Message) -> Result<(), AllocError>
    ensures { OnOk result (messages.new.items ≡ add m messages.old.items) }
{
    let place = place_of(messages.as_slice(), &m);
    messages.insert(place, m)?;
    Ok(())
}
