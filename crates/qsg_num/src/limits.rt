//! Every limit of the group. All are this project's own, but for the profile's 63 KB of an inline body.

/// Queue managers in a group.
pub const MEMBERS: u8 = 8;

/// Application tasks of a member; its system task comes besides.
pub const TASKS: u8 = 4;

/// List structures of a group.
pub const STRUCTURES: u8 = 4;

/// Queues of a group.
pub const QUEUES: usize = 64;

/// Operations of one unit of work.
pub const UNIT_OPERATIONS: usize = 1_000;

/// Priorities of a message are 0 to 9.
pub const PRIORITIES: u8 = 10;

/// Bytes of the longest body.
pub const LONGEST_BODY: u32 = 4_194_304;

/// Bytes of the longest body that an entry keeps itself: 63 KB.
pub const INLINE_BODY: u32 = 64_512;

/// Bytes of all bodies that a script puts.
pub const ALL_BODIES: u64 = 268_435_456;

/// Bytes of a body for which an inline entry takes one element.
pub const ELEMENT_BYTES: u32 = 256;

/// Elements of a list structure, at most.
pub const ELEMENTS: u32 = 1_048_576;

/// Bytes of a log page.
pub const PAGE_BYTES: u32 = 4_096;

/// Bytes of the body of a log page: all but its gate.
pub const PAGE_BODY: usize = 4_095;

/// Pages of a log, at most.
pub const LOG_PAGES: u32 = 8_192;

/// Numbers of log pages lie below this one.
pub const PAGE_NUMBERS: u32 = 4_290_000_000;

/// Bytes before the first block of a data set, where its saved map stands.
pub const DATA_SET_HEADER: u32 = 4_096;

/// Blocks of a data set, at most.
pub const DATA_SET_BLOCKS: u32 = 8_192;

/// Bytes of the blocks of a data set, at most.
pub const DATA_SET_BYTES: u32 = 67_108_864;

/// Bytes of all devices together, at most.
pub const ALL_DEVICE_BYTES: u64 = 1_073_741_824;

/// Bytes of a script, at most.
pub const SCRIPT_BYTES: usize = 4_194_304;

/// Bytes of a line of a script without its line feed, at most.
pub const LINE_BYTES: usize = 4_096;

/// Steps of a schedule, at most.
pub const SCHEDULE_STEPS: u64 = 10_000_000;

/// Characters of the name of a group or member, at most.
pub const GROUP_NAME: usize = 4;

/// Characters of the name of a structure, at most.
pub const STRUCTURE_NAME: usize = 12;

/// Characters of the name of a queue, at most.
pub const QUEUE_NAME: usize = 48;

/// Characters of a DSGROUP, at most.
pub const DSGROUP_CHARS: usize = 44;

/// Characters of a DESCR, at most.
pub const DESCR_CHARS: usize = 64;

/// Epochs of a structure lie below this number.
pub const EPOCHS: u32 = 1 << 24;

/// Numbers of entries within an epoch lie below this number.
pub const SEQS: u64 = 1 << 40;
