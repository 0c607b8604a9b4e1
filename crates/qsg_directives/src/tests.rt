//! Bodies by their size, and requests of directives.

use super::*;
use qsg_num::{Actor, Name, QueueName};
use qsg_objects::{BodyWord, Directive};
use qsg_requests::Request;
use std::test::*;

#[test]
fn bodies_of_a_size_repeat(rt: HostRuntime) -> Result<(), Fail> {
    let body = body_of(rt.alloc(), &BodyWord::Size(502))?;
    assert_eq!(rt; body.len(), 502);
    assert_eq!(rt; body.as_slice()[250], 250);
    assert_eq!(rt; body.as_slice()[251], 0);
    assert_eq!(rt; body_of(rt.alloc(), &BodyWord::Size(0))?.len(), 0);
    Ok(())
}

#[test]
fn directives_ask_for_requests(rt: HostRuntime) -> Result<(), Fail> {
    let queue = QueueName::from_name(Name::from_str(rt.alloc(), "Q1")?)?;
    let get = Directive::Get {
        queue,
        msg_id: None,
        correl_id: Some([7; 24]),
    };
    let Some(Request::Get { select, .. }) = request_of(rt.alloc(), &get)? else {
        panic!(rt; "a get asks for something else");
    };
    assert_eq!(rt; select.correl_id, Some([7; 24]));
    assert!(rt;
        matches!(
            request_of(rt.alloc(), &Directive::Backout)?,
            Some(Request::Backout)
        )
    );
    assert!(rt; request_of(rt.alloc(), &Directive::Wait(Actor::Operator, 1))?.is_none());
    Ok(())
}
