//! Replies without the room that their steps had made for them.

ghost use Rattle.std.specs.Prelude.{◌≡◌};

use qsg_msg::Message;
use qsg_num::Body;
use qsg_requests::Reply;
use std::alloc::Global;

/// A body in no more room than it needs, or as it is where there is no memory.
fn tight(alloc: Global, body: Body) -> Body
    ensures { result ≡ body }
{
    match Body::from_slice(alloc, body.as_slice()) {
        Ok(copy) => copy,
        Err(_) => body,
    }
}

/// A message whose body is so.
fn with_tight_body(alloc: Global, message: Message) -> Message
    ensures { result ≡ message }
{
    let Message {
        id,
        structure,
        queue,
        priority,
        persistent,
        msg_id,
        correl_id,
        body,
    } = message;
    Message {
        id,
        structure,
        queue,
        priority,
        persistent,
        msg_id,
        correl_id,
        body: tight(alloc, body),
    }
}

/// A reply without room that it doesn't need: a GET makes room for the longest body before it takes an entry.
pub fn without_room(alloc: Global, reply: Reply) -> Reply
    ensures { result ≡ reply }
{
    match reply {
        Reply::Got(message) => Reply::Got(with_tight_body(alloc, message)),
        other => other,
    }
}
