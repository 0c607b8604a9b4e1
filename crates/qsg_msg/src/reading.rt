//! Reading a message.

ghost use Rattle.std.specs.Prelude.{◌≡◌, ◌++◌, ℕ, List, length, take, IfOk, IsErrOf};
ghost use Rattle.qsg_msg.specs.declared.message.Message.{Message};
ghost use Rattle.qsg_msg.specs.Prefix.{IsFaultPlace};
ghost use Rattle.qsg_msg.specs.Spelling.{spelling, IsMessage, IsSpelling};
ghost use Rattle.qsg_msg.specs.Reading.{Gives, message_at};
ghost use Rattle.qsg_msg.specs.Decoding.{ReadsAs, BeginsNone};

use crate::fault::{MessageFault, Stop};
use crate::fields::{bit_of, body_of, id_of, priority_of, queue_of, read_structure, read_u64};
use crate::message::Message;
use qsg_num::EntryId;
use std::alloc::Global;

/// The message that begins the bytes, and the bytes behind it.
#[tactic(auto, unfolding(crate::specs::Reading::message_at))]
pub fn read_message(alloc: Global, bytes: &[u8]) -> Result<(Message, &[u8]), Stop>
    ensures { Gives (λ x. (x.0, x.1.now)) result (message_at bytes.now) }
{
    let (id, rest) = read_u64(bytes)?;
    let (structure, rest) = read_structure(rest)?;
    let (queue, rest) = queue_of(alloc, rest)?;
    let (priority, rest) = priority_of(rest)?;
    let (persistent, rest) = bit_of(rest)?;
    let (msg_id, rest) = id_of(rest)?;
    let (correl_id, rest) = id_of(rest)?;
    let (body, rest) = body_of(alloc, rest)?;
    let message = Message {
        id: EntryId { number: id },
        structure,
        queue,
        priority,
        persistent,
        msg_id,
        correl_id,
        body,
    };
    Ok((message, rest))
}

/// The message that begins the input, and how many bytes its spelling takes; other bytes may follow.
pub fn decode(alloc: Global, input: &[u8]) -> Result<(Message, usize), MessageFault>
    // What is read is spelled so.
    ensures found { IfOk result (λ x. IsMessage x.0 × (x.1 ≡ length (spelling x.0)) × (take x.1 input.now ≡ spelling x.0)) }
    // What is spelled so is read, whatever follows, unless memory runs out.
    ensures reads_back { (m : Message) (rest : List ℕ) → IsMessage m → input.now ≡ spelling m ++ rest → ReadsAs m result }
    // It is bad exactly where no message's spelling begins the input.
    ensures bad { (at : ℕ) → IsErrOf result (MessageFault.BadMessage at) → BeginsNone input.now }
    // The place of the fault.
    ensures place { (at : ℕ) → IsErrOf result (MessageFault.BadMessage at) → IsFaultPlace IsSpelling input.now at }
{
    match read_message(alloc, input) {
        Ok((message, rest)) => Ok((message, input.len() - rest.len())),
        Err(Stop::NoMemory) => Err(MessageFault::NoMemory),
        Err(Stop::Bad(left)) => Err(MessageFault::BadMessage {
            at: input.len() - left,
        }),
    }
}

/// No spelling of a message begins another, and each spelling is that of one message.
pub fn spellings_are_apart()
    ensures { (a b : Message) (x y : List ℕ) → IsMessage a → IsMessage b → spelling a ++ x ≡ spelling b ++ y → (a ≡ b) × (x ≡ y) }
{}
