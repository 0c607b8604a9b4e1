//! How far a STOP has come, and how a step ends.

ghost use Rattle.std.specs.Prelude.{◌≡◌, ◌≤◌};

use qsg_lists::Connection;
use qsg_num::StructNo;

/// A call that saves the map of a data set in its header, in order.
#[derive(Clone, Copy, Debug, PartialEq, Eq)]
pub enum SaveCall {
    /// The map is written behind the gate.
    WriteMap,
    /// It is made safe.
    SyncMap,
    /// The gate is opened.
    OpenGate,
    /// That is made safe.
    SyncGate,
}

impl SaveCall {
    ghost use Rattle.qsg_stop.specs.Calls.{number_of};

    /// Its number, from 1.
    pub fn get(self) -> u8
        ensures value { result ≡ number_of self }
        ensures bound { (1 ≤ result) × (result ≤ 4) }
    {
        match self {
            SaveCall::WriteMap => 1,
            SaveCall::SyncMap => 2,
            SaveCall::OpenGate => 3,
            SaveCall::SyncGate => 4,
        }
    }
}

/// How far a STOP has come.
#[derive(Clone, Copy, Debug, PartialEq, Eq)]
pub enum Phase {
    /// This structure is to be connected to.
    Connect(StructNo),
    /// The member's map stands for this use of a structure. This call of saving it comes next.
    Save {
        connection: Connection,
        call: SaveCall,
    },
    /// The calls that save the map are through, or one has failed. The repository is told next.
    Tell(Connection),
    /// All structures were gone through. The member's storage goes.
    Last,
}

/// How a step ended.
#[derive(Clone, Copy, Debug, PartialEq, Eq)]
pub enum StopTurn {
    /// The work goes on.
    More,
    /// The member has stopped. The work has ended.
    Stopped,
}
