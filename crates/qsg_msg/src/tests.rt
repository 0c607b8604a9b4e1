//! A message with each field, its bytes, and bytes that leave the grammar.

use crate::{Message, MessageFault, decode, encode};
use qsg_num::{Body, EntryId, Name, Priority, QueueName, StructNo};
use std::test::*;

/// `PUT Q1 BODY('hello') PRI(3) PERS(1)`, the second entry of the first epoch of structure 2.
const FRONT: [u8; 14] = [0, 0, 1, 0, 0, 0, 0, 2, 2, 2, b'Q', b'1', 3, 1];

fn bytes(rt: HostRuntime) -> Result<Vec<u8>, Fail> {
    let mut bytes = Vec::new(rt.alloc());
    bytes.extend_from_slice(&FRONT)?;
    bytes.resize(38, 7)?;
    bytes.resize(62, 9)?;
    bytes.extend_from_slice(&[0, 0, 0, 5, b'h', b'e', b'l', b'l', b'o'])?;
    Ok(bytes)
}

#[test]
fn a_message_is_spelled_and_read(rt: HostRuntime) -> Result<(), Fail> {
    let name = Name::from_str(rt.alloc(), "Q1")?;
    let message = Message {
        id: EntryId::new(1 << 40 | 2),
        structure: StructNo::Two,
        queue: QueueName::from_name(name).ok().ok_or("a name")?,
        priority: Priority::Three,
        persistent: true,
        msg_id: [7; 24],
        correl_id: [9; 24],
        body: Body::from_slice(rt.alloc(), b"hello")?,
    };
    let spelled = encode(rt.alloc(), &message)?;
    let mut expected = bytes(rt)?;
    assert_eq!(rt; spelled.as_slice(), expected.as_slice());
    assert_eq!(rt; spelled.len(), 71);
    expected.push(255)?;
    let (read, length) = decode(rt.alloc(), &expected).ok().ok_or("a message")?;
    assert_eq!(rt; length, 71);
    assert_eq!(rt; read.id, message.id);
    assert_eq!(rt; read.structure, StructNo::Two);
    assert!(rt; read.queue.is("Q1"));
    assert_eq!(rt; read.priority, Priority::Three);
    assert!(rt; read.persistent);
    assert_eq!(rt; read.msg_id, [7; 24]);
    assert_eq!(rt; read.correl_id, [9; 24]);
    assert_eq!(rt; read.body.as_slice(), b"hello".as_slice());
    Ok(())
}

#[test]
fn each_fault_has_its_place(rt: HostRuntime) -> Result<(), Fail> {
    // A byte of the message, what stands there, and the place of the fault.
    let faults = [
        (8, 0, 8),
        (8, 5, 8),
        (9, 0, 9),
        (9, 49, 9),
        (9, 3, 12),
        (10, b' ', 10),
        (12, 10, 12),
        (13, 2, 13),
        (62, 1, 62),
        (63, 65, 63),
        (63, 64, 65),
        (65, 6, 71),
    ];
    for (at, byte, place) in faults {
        let mut bytes = bytes(rt)?;
        if let Some(there) = bytes.get_mut(at) {
            *there = byte;
        }
        let fault = decode(rt.alloc(), &bytes).err();
        assert_eq!(rt; fault, Some(MessageFault::BadMessage { at: place }));
    }
    let short = bytes(rt)?;
    for length in 0..short.len() {
        let fault = decode(rt.alloc(), &short[..length]).err();
        assert_eq!(rt; fault, Some(MessageFault::BadMessage { at: length }));
    }
    Ok(())
}
