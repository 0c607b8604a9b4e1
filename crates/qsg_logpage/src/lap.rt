//! The lap in a page's body.

ghost use Rattle.std.specs.Prelude.{◌≡◌, ◌+◌, ◌^◌, ◌<◌, ◌≤◌, true, length, map, OnOk};
ghost use Rattle.qsg_num.specs.Faults.{HasCause};
ghost use Rattle.qsg_disk.specs.Byte.{Byte, part, written, Beside};
ghost use Rattle.qsg_logpage.specs.Page.{lap_of, with_lap};

use qsg_disk::{Disk, Failed};
use qsg_num::{PAGE_BODY, Page};

/// The lap in a body, in its bytes 3 to 6.
pub fn lap_of(body: &[u8]) -> u32
    requires { length body.now ≡ PAGE_BODY }
    ensures { result ≡ lap_of body.now }
{
    u32::from_be_bytes([body[3], body[4], body[5], body[6]])
}

/// A body with another lap.
fn lapped(body: &[u8], lap: u32) -> [u8; PAGE_BODY]
    requires { length body.now ≡ PAGE_BODY }
    ensures body { result ≡ with_lap lap body.now }
    ensures lap { lap_of (with_lap lap body.now) ≡ lap }
    ensures length { length result ≡ PAGE_BODY }
{
    let mut lapped = [0; PAGE_BODY];
    lapped.copy_from_slice(body);
    lapped[3..7].copy_from_slice(&lap.to_be_bytes());
    lapped
}

/// Writes a body with its lap.
pub fn write_body<D: Disk>(device: &mut D, at: u32, page: &Page, lap: u32) -> Result<(), Failed>
    requires { at + PAGE_BODY ≤ D.extent device.old }
    ensures told { D.tells device.new ≡ D.tells device.old }
    ensures extent { D.extent device.new ≡ D.extent device.old }
    ensures cause { HasCause (D.faults device.old) (D.faults device.new) result }
    ensures beside { D.tells device.old ≡ true → Beside at PAGE_BODY (D.bytes device.old) (D.bytes device.new) }
    ensures lap { lap_of (with_lap lap page.now) ≡ lap }
    ensures written { OnOk result (D.tells device.old ≡ true → part at PAGE_BODY (D.bytes device.new) ≡ map written (with_lap lap page.now)) }
{
    device.write(at, &lapped(page.as_slice(), lap))
}
