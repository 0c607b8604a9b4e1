//! The request of a directive.

ghost use Rattle.std.specs.Prelude.{◌≡◌, IfOk};
ghost use Rattle.qsg_directives.specs.Asking.{request_of, IsRight};

use crate::bodies::body_of;
use qsg_lists::Selector;
use qsg_objects::Directive;
use qsg_requests::{PutWords, Request};
use std::alloc::{AllocError, Global};

/// The request of a task that a directive asks for; None exactly where it asks for none of these.
pub fn request_of(alloc: Global, directive: &Directive) -> Result<Option<Request>, AllocError>
    requires { IsRight directive.now }
    ensures { IfOk result (λ request. request ≡ request_of directive.now) }
{
    Ok(match directive {
        Directive::Put {
            queue,
            body,
            priority,
            persistent,
            msg_id,
            correl_id,
        } => Some(Request::Put(PutWords {
            queue: queue.clone()?,
            body: body_of(alloc, body)?,
            priority: *priority,
            persistent: *persistent,
            msg_id: *msg_id,
            correl_id: *correl_id,
        })),
        Directive::Get {
            queue,
            msg_id,
            correl_id,
        } => Some(Request::Get {
            queue: queue.clone()?,
            select: Selector {
                msg_id: *msg_id,
                correl_id: *correl_id,
            },
        }),
        Directive::Commit => Some(Request::Commit),
        Directive::Backout => Some(Request::Backout),
        Directive::Wait(..)
        | Directive::Backup(_)
        | Directive::Recover(..)
        | Directive::ResetSmds(..)
        | Directive::DisplayCfstatus(_)
        | Directive::DisplayQueue(_)
        | Directive::DisplaySmds(_)
        | Directive::Crash(..)
        | Directive::Start(_)
        | Directive::Stop(_)
        | Directive::Lose(_) => None,
    })
}
