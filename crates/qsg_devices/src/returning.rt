//! Devices that are given back to a rig, each as that of its member and kind.

ghost use Rattle.std.specs.Prelude.{◌≡◌, ◌≤◌, true, length};
ghost use Rattle.qsg_devices.specs.Places.{AreGivenBack, HaveFour, row_bytes, rows_bytes, logs_bytes, device_bytes};

use qsg_datasets::{DataSets, MemberDataSets};
use qsg_disk::{Disk, Kind, Rig};
use qsg_logs::Logs;
use qsg_num::{Member, StructNo};

/// Gives the data sets of a member back.
pub fn give_back_row<D: Disk + Drop, R: Rig<D = D>>(
    rig: &mut R,
    member: Member,
    row: MemberDataSets<D>,
)
    requires few { length row ≤ 4 }
    ensures given { R.tells rig.old ≡ true → AreGivenBack D.bytes (row_bytes member row) (R.given rig.old) (R.given rig.new) }
    ensures later { R.faults rig.old ≤ R.faults rig.new }
    ensures told { R.tells rig.new ≡ R.tells rig.old }
{
    let mut number = 0u8;
    for set in row.into_vec() {
        number += 1;
        if let Some(structure) = StructNo::new(number) {
            let device = set.into_data_set().into_device();
            rig.give_back(member, Kind::DataSet(structure), device);
        }
    }
}

/// Gives the data sets of all members back.
fn give_back_rows<D: Disk + Drop, R: Rig<D = D>>(rig: &mut R, rows: DataSets<D>)
    requires few { length rows ≤ 8 }
    requires each { HaveFour rows }
    ensures given { R.tells rig.old ≡ true → AreGivenBack D.bytes (rows_bytes rows) (R.given rig.old) (R.given rig.new) }
    ensures later { R.faults rig.old ≤ R.faults rig.new }
    ensures told { R.tells rig.new ≡ R.tells rig.old }
{
    let mut number = 0u8;
    for row in rows.into_vec() {
        number += 1;
        if let Some(member) = Member::new(number) {
            give_back_row(rig, member, row);
        }
    }
}

/// Gives the logs of all members back.
fn give_back_logs<D: Disk + Drop, R: Rig<D = D>>(rig: &mut R, logs: Logs<D>)
    requires few { length logs ≤ 8 }
    ensures given { R.tells rig.old ≡ true → AreGivenBack D.bytes (logs_bytes logs) (R.given rig.old) (R.given rig.new) }
    ensures later { R.faults rig.old ≤ R.faults rig.new }
    ensures told { R.tells rig.new ≡ R.tells rig.old }
{
    let mut number = 0u8;
    for log in logs.into_vec() {
        number += 1;
        if let Some(member) = Member::new(number) {
            rig.give_back(member, Kind::Log, log.into_device());
        }
    }
}

/// Gives logs and data sets back.
pub fn give_back<D: Disk + Drop, R: Rig<D = D>>(rig: &mut R, logs: Logs<D>, rows: DataSets<D>)
    requires few { length logs ≤ 8 }
    requires rows { length rows ≤ 8 }
    requires each { HaveFour rows }
    ensures given { R.tells rig.old ≡ true → AreGivenBack D.bytes (device_bytes logs rows) (R.given rig.old) (R.given rig.new) }
    ensures later { R.faults rig.old ≤ R.faults rig.new }
    ensures told { R.tells rig.new ≡ R.tells rig.old }
{
    give_back_logs(rig, logs);
    give_back_rows(rig, rows);
}
