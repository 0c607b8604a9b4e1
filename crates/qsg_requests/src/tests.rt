//! Answers in the order in which they were added.

use super::*;
use qsg_num::EntryId;
use qsg_offload::Placed;
use std::test::*;

fn put(seq: u64) -> Answer {
    Answer {
        verb: Verb::Put,
        reply: Reply::PutOk {
            id: EntryId { number: seq },
            placed: Placed::Inside,
        },
        at: 0,
    }
}

#[test]
fn answers_stand_in_order(rt: HostRuntime) -> Result<(), Fail> {
    let mut transcript = Transcript::new(rt.alloc());
    transcript.reserve(2)?;
    transcript.push(put(1));
    transcript.push(Answer {
        verb: Verb::Commit,
        reply: Reply::Unit {
            unit: None,
            count: 0,
        },
        at: 0,
    });
    assert_eq!(rt; transcript.len(), 2);
    assert_eq!(rt; transcript.as_slice()[0].verb, Verb::Put);
    assert_eq!(rt; transcript.as_slice()[1].verb, Verb::Commit);
    Ok(())
}
