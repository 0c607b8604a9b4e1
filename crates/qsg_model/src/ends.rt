//! How often a structure was lost or purged.

ghost use Rattle.std.specs.Prelude.{◌≡◌, ◌+◌, ◌<◌, ◌≤◌, ◌^◌};
ghost use Rattle.qsg_num.specs.Seats.{structure_number};
ghost use Rattle.qsg_model.specs.Past.{past_of};
ghost use Rattle.qsg_model.specs.History.{key};

use crate::history::Item;
use qsg_msg::Message;
use qsg_num::StructNo;

/// The losses and purges of a structure so far, and how many they were just after it was purged last.
#[derive(Clone, Copy)]
pub struct Ends {
    pub count: u64,
    pub floor: u64,
}

impl Ends {
    ghost use Rattle.qsg_model.specs.Ends.{ends_after};

    /// What they are after one more item.
    fn after(self, structure: StructNo, item: &Item) -> Ends
        requires { self.count + 1 < 2 ^ 64 }
        ensures { result ≡ ends_after (structure_number structure) self item.now }
    {
        match item {
            Item::Unit(..) => self,
            Item::Lost(lost) => {
                if structure.get() == lost.get() {
                    Ends {
                        count: self.count + 1,
                        floor: self.floor,
                    }
                } else {
                    self
                }
            }
            Item::Purged(purged) => {
                if structure.get() == purged.get() {
                    Ends {
                        count: self.count + 1,
                        floor: self.count + 1,
                    }
                } else {
                    self
                }
            }
        }
    }
}

/// The losses and purges of a message's structure.
pub fn ends_of(history: &[Item], m: &Message) -> Ends
    ensures count { result.count ≡ (past_of (key m.now) history.now).count }
    ensures floor { result.floor ≡ (past_of (key m.now) history.now).floor }
{
    let mut ends = Ends { count: 0, floor: 0 };
    for item in history {
        ends = ends.after(m.structure, item);
    }
    ends
}
