//! Reading a page.

ghost use Rattle.std.specs.Prelude.{◌≡◌, ◌<◌, ◌≤◌, ◌*◌, ◌/◌, ◌%◌, ◌+◌, true, length, IfOk, OnOk, IfSome};
ghost use Rattle.qsg_num.specs.Faults.{HasCause};
ghost use Rattle.qsg_disk.specs.Byte.{Byte, values, part};
ghost use Rattle.qsg_logpage.specs.Page.{page_at, page_read, lap_of};

use crate::lap::lap_of;
use qsg_disk::{Disk, Failed};
use qsg_num::{PAGE_BYTES, Page, PageNo};
use std::alloc::{AllocError, Global};

/// Room for the bytes of a page, with its gate: what `read_page` reads into. Where it is made before a step's first
/// change, want of memory leaves all as it was.
pub fn page_room(alloc: Global) -> Result<Vec<u8>, AllocError>
    ensures { IfOk result (λ room. length room.items ≡ PAGE_BYTES) }
{
    vec![in alloc; 0; PAGE_BYTES as usize]
}

/// Reads the body of a page of a log that fills its device, into room for a page. None exactly where the gate at the
/// page's position is 0 or the lap there isn't the page's. It reads values now, changes no byte, and takes no memory.
pub fn read_page<D: Disk>(
    device: &mut D,
    no: PageNo,
    mut room: Vec<u8>,
) -> Result<Option<Page>, Failed>
    requires some { 0 < D.extent device.old }
    requires whole { D.extent device.old % 4096 ≡ 0 }
    requires room { length room.items ≡ PAGE_BYTES }
    ensures told { D.tells device.new ≡ D.tells device.old }
    ensures extent { D.extent device.new ≡ D.extent device.old }
    ensures bytes { D.tells device.old ≡ true → D.bytes device.new ≡ D.bytes device.old }
    ensures cause { HasCause (D.faults device.old) (D.faults device.new) result }
    ensures lap { IfOk result (λ found. IfSome found (λ body. lap_of body ≡ no.number / (D.extent device.old / 4096))) }
    ensures page { IfOk result (λ found. D.tells device.old ≡ true → found ≡ page_read (no.number / (D.extent device.old / 4096)) (values (page_at (D.bytes device.old) (D.extent device.old / 4096) no.number))) }
{
    let size = device.size() / PAGE_BYTES;
    let at = PAGE_BYTES * (no.number % size);
    fill(device, at, &mut room)?;
    Ok(opened(room, no.number / size))
}

/// Reads so many bytes as stand in a buffer.
fn fill<D: Disk>(device: &mut D, at: u32, bytes: &mut Vec<u8>) -> Result<(), Failed>
    requires { at + length bytes.old.items ≤ D.extent device.old }
    ensures told { D.tells device.new ≡ D.tells device.old }
    ensures extent { D.extent device.new ≡ D.extent device.old }
    ensures bytes { D.tells device.old ≡ true → D.bytes device.new ≡ D.bytes device.old }
    ensures cause { HasCause (D.faults device.old) (D.faults device.new) result }
    ensures length { length bytes.new.items ≡ length bytes.old.items }
    ensures read { OnOk result (D.tells device.old ≡ true → bytes.new.items ≡ values (part at (length bytes.old.items) (D.bytes device.old))) }
{
    device.read(at, bytes)
}

/// The body of a page of these bytes, if its gate is open and its lap is this one.
fn opened(mut bytes: Vec<u8>, lap: u32) -> Option<Page>
    requires { length bytes.items ≡ PAGE_BYTES }
    ensures page { result ≡ page_read lap bytes.items }
    ensures lap { IfSome result (λ body. lap_of body ≡ lap) }
{
    if bytes[0] == 0 {
        return None;
    }
    bytes.remove(0);
    if lap_of(&bytes) != lap {
        return None;
    }
    Some(Page::from_vec(bytes))
}
