//! The gate of a page.

ghost use Rattle.std.specs.Prelude.{◌≡◌, ◌+◌, ◌^◌, ◌<◌, ◌≤◌, true};
ghost use Rattle.qsg_num.specs.Faults.{HasCause};
ghost use Rattle.qsg_disk.specs.Byte.{Byte};
ghost use Rattle.qsg_logpage.specs.Log.{IsGateShut};

use qsg_disk::{Disk, Failed};

/// Makes the gate at an offset 0. A gate that is 0 is left as it is: written again it would be in doubt, and a
/// power cut could open it over a body that an earlier cut left behind it.
pub fn shut_gate<D: Disk>(device: &mut D, at: u32) -> Result<(), Failed>
    requires { at + 1 ≤ D.extent device.old }
    ensures told { D.tells device.new ≡ D.tells device.old }
    ensures extent { D.extent device.new ≡ D.extent device.old }
    ensures cause { HasCause (D.faults device.old) (D.faults device.new) result }
    ensures shut { D.tells device.old ≡ true → IsGateShut at result (D.bytes device.old) (D.bytes device.new) }
{
    let mut gate = [0; 1];
    device.read(at, &mut gate)?;
    if gate[0] == 0 {
        return Ok(());
    }
    device.write(at, &[0])
}
