//! The bytes of the records of a unit.

ghost use Rattle.std.specs.Prelude.{◌≡◌, ◌+◌, ◌≤◌, List, length};
ghost use Rattle.qsg_num.specs.declared.ids.EntryId.{EntryId};
ghost use Rattle.qsg_num.specs.declared.ids.UnitName.{UnitName};
ghost use Rattle.qsg_num.specs.declared.seats.StructNo.{StructNo};
ghost use Rattle.qsg_msg.specs.declared.message.Message.{Message};
ghost use Rattle.qsg_msg.specs.Spelling.{IsMessage};
ghost use Rattle.qsg_logrec.specs.declared.record.LogRecord.TheVariants as LogRecord;
ghost use Rattle.qsg_logrec.specs.Spelling.{record_text};

use crate::counting::LONGEST_RECORD;
use qsg_num::{LONGEST_BODY, QUEUE_NAME};

/// Bytes of the record of a put besides the name of its queue and its body.
const PUT_FIELDS: u32 = 74;

/// Bytes of the record of a put, by the bytes of the name of its queue and of its body.
#[tactic(auto, using(crate::proofs::RecordBytes::put_long))]
pub fn put_bytes(queue: u32, body: u32) -> u32
    requires queue { queue ≤ QUEUE_NAME }
    requires body { body ≤ LONGEST_BODY }
    ensures value { result ≡ 74 + queue + body }
    ensures spelled { (unit : UnitName) → (message : Message) → IsMessage message → length message.queue ≡ queue → length message.body ≡ body →
        length (record_text (LogRecord.Put unit message)) ≡ result }
    ensures bound { result ≤ LONGEST_RECORD }
{
    PUT_FIELDS + queue + body
}

/// Bytes of the record of a get, of any message.
#[tactic(auto, using(crate::proofs::RecordBytes::got_long))]
pub fn got_bytes() -> u32
    ensures value { result ≡ 19 }
    ensures spelled { (unit : UnitName) → (id : EntryId) → (structure : StructNo) → length (record_text (LogRecord.Got unit id structure)) ≡ result }
{
    19
}

/// Bytes of the record that ends a unit, whatever structures it worked on.
#[tactic(auto, using(crate::proofs::RecordBytes::commit_long))]
pub fn commit_bytes() -> u32
    ensures value { result ≡ 11 }
    ensures spelled { (unit : UnitName) → (set : List StructNo) → length (record_text (LogRecord.CommitIn unit set)) ≡ result }
{
    11
}
