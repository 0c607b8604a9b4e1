//! One device.

ghost use Rattle.std.specs.Prelude.{◌≡◌, ◌+◌, ◌^◌, ◌<◌, ◌≤◌, List, ℕ, Bool, true, length, map, slice_index, OnOk};
ghost use Rattle.qsg_num.specs.Faults.{HasCause};
ghost use Rattle.qsg_disk.specs.Byte.{Byte, values, synced, written, part, AreUnsafe, Beside, EachPair, IsKeptOrSynced, IsCut};

use qsg_num::Failed;

/// A device of bytes. Each byte has a value now and a safe value or none; a power cut leaves the safe value.
///
/// No call changes whether a device tells its bytes or how many it has, and none lowers its count of faults.
/// No call takes memory.
pub trait Disk {
    /// Whether the device tells its bytes. Where it doesn't, nothing is said of them.
    ghost tells: { Self → Bool };

    /// Its bytes, each with its value now and its safe value or none, where it tells them.
    ghost bytes: { Self → List Byte };

    /// How many bytes it has.
    ghost extent: { Self → ℕ };

    /// How often it has failed.
    ghost faults: { Self → ℕ };

    /// How many bytes it has.
    fn size(&self) -> u32
        ensures { result ≡ extent self.now };

    /// Gives the values now of the bytes from offset `at` on, and changes no byte, whether it succeeds or not.
    fn read(&mut self, at: u32, into: &mut [u8]) -> Result<(), Failed>
        requires { at + length into.old ≤ extent self.old }
        ensures told { tells self.new ≡ tells self.old }
        ensures extent { extent self.new ≡ extent self.old }
        ensures cause { HasCause (faults self.old) (faults self.new) result }
        ensures bytes { tells self.old ≡ true → bytes self.new ≡ bytes self.old }
        ensures read { OnOk result (tells self.old ≡ true → into.new ≡ values (part at (length into.old) (bytes self.old))) };

    /// Sets the values of the bytes from offset `at` on. Whether it succeeds or not, no byte of that range has
    /// a safe value then, and the other bytes are as they were. After a failure the range has any values.
    fn write(&mut self, at: u32, from: &[u8]) -> Result<(), Failed>
        requires { at + length from.now ≤ extent self.old }
        ensures told { tells self.new ≡ tells self.old }
        ensures extent { extent self.new ≡ extent self.old }
        ensures cause { HasCause (faults self.old) (faults self.new) result }
        ensures beside { tells self.old ≡ true → Beside at (length from.now) (bytes self.old) (bytes self.new) }
        ensures torn { tells self.old ≡ true → AreUnsafe (part at (length from.now) (bytes self.new)) }
        ensures written { OnOk result (tells self.old ≡ true → part at (length from.now) (bytes self.new) ≡ map written from.now) };

    /// Makes every byte safe. Where it fails it may have made some safe. No value changes.
    fn sync(&mut self) -> Result<(), Failed>
        ensures told { tells self.new ≡ tells self.old }
        ensures extent { extent self.new ≡ extent self.old }
        ensures cause { HasCause (faults self.old) (faults self.new) result }
        ensures kept { tells self.old ≡ true → EachPair IsKeptOrSynced (bytes self.old) (bytes self.new) }
        ensures synced { OnOk result (tells self.old ≡ true → bytes self.new ≡ map synced (bytes self.old)) };

    /// The power goes and comes back: each byte has its safe value, or any value where it had none, and all
    /// are safe. `pick` chooses among these values. Answers the value that byte `at` then has; no manager
    /// uses that answer.
    fn power_cut(&mut self, pick: u64, at: u32) -> u8
        requires { at < extent self.old }
        ensures told { tells self.new ≡ tells self.old }
        ensures extent { extent self.new ≡ extent self.old }
        ensures faults { faults self.old ≤ faults self.new }
        ensures cut { tells self.old ≡ true → EachPair IsCut (bytes self.old) (bytes self.new) }
        ensures answer { tells self.old ≡ true → result ≡ slice_index (values (bytes self.new)) at };

    /// Where it tells its bytes, there are as many as it has.
    ghost whole: { (disk : Self) → tells disk ≡ true → length (bytes disk) ≡ extent disk };

    /// It has fewer than 2^32 bytes.
    ghost small: { (disk : Self) → extent disk < 2 ^ 32 };
}
