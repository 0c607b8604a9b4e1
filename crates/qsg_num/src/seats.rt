//! Members, structures, tasks and priorities: numbers of a small range, each an enum that keeps it.

ghost use Rattle.std.specs.Prelude.{◌≡◌, ℕ, ◌+◌, ◌<◌, ◌≤◌, ◌↔◌, IsSome, IfSome};

/// A member of the group, 1 to 8.
#[derive(Clone, Copy, Debug, PartialEq, Eq, PartialOrd, Ord)]
pub enum Member {
    One = 1,
    Two = 2,
    Three = 3,
    Four = 4,
    Five = 5,
    Six = 6,
    Seven = 7,
    Eight = 8,
}

impl Member {
    ghost use Rattle.qsg_num.specs.Seats.{member_number, member_at};

    /// The one of a number; None exactly out of range.
    pub fn new(n: u8) -> Option<Self>
        ensures value { result ≡ member_at n }
        ensures valid { IsSome result ↔ ((1 ≤ n) × (n ≤ 8)) }
        ensures number { IfSome result (λ m. member_number m ≡ n) }
    {
        match n {
            1 => Some(Member::One),
            2 => Some(Member::Two),
            3 => Some(Member::Three),
            4 => Some(Member::Four),
            5 => Some(Member::Five),
            6 => Some(Member::Six),
            7 => Some(Member::Seven),
            8 => Some(Member::Eight),
            _ => None,
        }
    }

    /// Its number.
    pub fn get(self) -> u8
        ensures value { result ≡ member_number self }
        ensures bound { (1 ≤ result) × (result ≤ 8) }
    {
        self as u8
    }

    /// Its place in a table, from 0.
    pub fn index(self) -> usize
        ensures value { result + 1 ≡ member_number self }
        ensures bound { result < 8 }
    {
        self as usize - 1
    }
}

/// A list structure, 1 to 4.
#[derive(Clone, Copy, Debug, PartialEq, Eq)]
pub enum StructNo {
    One = 1,
    Two = 2,
    Three = 3,
    Four = 4,
}

impl StructNo {
    ghost use Rattle.qsg_num.specs.Seats.{structure_number, structure_at};

    /// The one of a number; None exactly out of range.
    pub fn new(n: u8) -> Option<Self>
        ensures value { result ≡ structure_at n }
        ensures valid { IsSome result ↔ ((1 ≤ n) × (n ≤ 4)) }
        ensures number { IfSome result (λ m. structure_number m ≡ n) }
    {
        match n {
            1 => Some(StructNo::One),
            2 => Some(StructNo::Two),
            3 => Some(StructNo::Three),
            4 => Some(StructNo::Four),
            _ => None,
        }
    }

    /// Its number.
    pub fn get(self) -> u8
        ensures value { result ≡ structure_number self }
        ensures bound { (1 ≤ result) × (result ≤ 4) }
    {
        self as u8
    }

    /// Its place in a table, from 0.
    pub fn index(self) -> usize
        ensures value { result + 1 ≡ structure_number self }
        ensures bound { result < 4 }
    {
        self as usize - 1
    }
}

/// A task of a member, 0 to 4, where 0 is the system task.
#[derive(Clone, Copy, Debug, PartialEq, Eq)]
pub enum TaskNo {
    System = 0,
    One = 1,
    Two = 2,
    Three = 3,
    Four = 4,
}

impl TaskNo {
    ghost use Rattle.qsg_num.specs.Seats.{task_number, task_at};

    /// The one of a number; None exactly out of range.
    pub fn new(n: u8) -> Option<Self>
        ensures value { result ≡ task_at n }
        ensures valid { IsSome result ↔ (n ≤ 4) }
        ensures number { IfSome result (λ m. task_number m ≡ n) }
    {
        match n {
            0 => Some(TaskNo::System),
            1 => Some(TaskNo::One),
            2 => Some(TaskNo::Two),
            3 => Some(TaskNo::Three),
            4 => Some(TaskNo::Four),
            _ => None,
        }
    }

    /// Its number.
    pub fn get(self) -> u8
        ensures value { result ≡ task_number self }
        ensures bound { result ≤ 4 }
    {
        self as u8
    }
}

/// The priority of a message, 0 to 9; 9 is delivered first.
#[derive(Clone, Copy, Debug, PartialEq, Eq)]
pub enum Priority {
    Zero = 0,
    One = 1,
    Two = 2,
    Three = 3,
    Four = 4,
    Five = 5,
    Six = 6,
    Seven = 7,
    Eight = 8,
    Nine = 9,
}

impl Priority {
    ghost use Rattle.qsg_num.specs.Seats.{priority_number, priority_at};

    /// The one of a number; None exactly out of range.
    pub fn new(n: u8) -> Option<Self>
        ensures value { result ≡ priority_at n }
        ensures valid { IsSome result ↔ (n ≤ 9) }
        ensures number { IfSome result (λ m. priority_number m ≡ n) }
    {
        match n {
            0 => Some(Priority::Zero),
            1 => Some(Priority::One),
            2 => Some(Priority::Two),
            3 => Some(Priority::Three),
            4 => Some(Priority::Four),
            5 => Some(Priority::Five),
            6 => Some(Priority::Six),
            7 => Some(Priority::Seven),
            8 => Some(Priority::Eight),
            9 => Some(Priority::Nine),
            _ => None,
        }
    }

    /// Its number.
    pub fn get(self) -> u8
        ensures value { result ≡ priority_number self }
        ensures bound { result ≤ 9 }
    {
        self as u8
    }
}
