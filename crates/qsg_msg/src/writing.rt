//! Writing a message.

ghost use Rattle.std.specs.Prelude.{◌≡◌, ◌++◌, ◌≤◌, length, IfOk, OnOk};
ghost use Rattle.qsg_msg.specs.Spelling.{spelling, key_text, descriptor_text, body_text, IsMessage};

use crate::message::Message;
use qsg_num::{Body, Bytes};
use std::alloc::{AllocError, Global};

fn push_key(out: &mut Vec<u8>, m: &Message) -> Result<(), AllocError>
    ensures { OnOk result (out.new.items ≡ out.old.items ++ key_text m.now) }
{
    out.extend_from_slice(&m.id.number.to_be_bytes())?;
    out.push(m.structure.get())?;
    out.push(m.queue.len() as u8)?;
    out.extend_from_slice(m.queue.as_str().as_bytes())?;
    Ok(())
}

fn push_descriptor(out: &mut Vec<u8>, m: &Message) -> Result<(), AllocError>
    ensures { OnOk result (out.new.items ≡ out.old.items ++ descriptor_text m.now) }
{
    out.push(m.priority.get())?;
    out.push(u8::from(m.persistent))?;
    out.extend_from_slice(&m.msg_id)?;
    out.extend_from_slice(&m.correl_id)?;
    Ok(())
}

fn push_body(out: &mut Vec<u8>, body: &Body) -> Result<(), AllocError>
    ensures { OnOk result (out.new.items ≡ out.old.items ++ body_text body.now) }
{
    out.extend_from_slice(&body.len().to_be_bytes())?;
    out.extend_from_slice(body.as_slice())?;
    Ok(())
}

/// What the types of its fields keep.
fn ranges(m: &Message)
    ensures { IsMessage m.now }
{
    let _id = m.id.number;
    let _ids = (m.msg_id, m.correl_id);
    let _queue = m.queue.as_str();
    let _body = m.body.as_slice();
}

/// The spelling of a message, behind the bytes that are there. These are dropped where memory runs out.
#[tactic(auto, unfolding(crate::specs::Spelling::spelling))]
pub fn push_message(front: Vec<u8>, m: &Message) -> Result<Vec<u8>, AllocError>
    ensures spelling { IfOk result (λ v. v.items ≡ front.items ++ spelling m.now) }
    ensures message { IsMessage m.now }
{
    ranges(m);
    let mut out = front;
    push_key(&mut out, m)?;
    push_descriptor(&mut out, m)?;
    push_body(&mut out, &m.body)?;
    Ok(out)
}

/// The spelling of a message.
pub fn encode(alloc: Global, m: &Message) -> Result<Bytes, AllocError>
    ensures spelling { IfOk result (λ v. v ≡ spelling m.now) }
    ensures message { IsMessage m.now }
{
    Ok(Bytes::from_vec(push_message(Vec::new(alloc), m)?))
}
