//! The ranges and defaults of the values of DEFINE. All are this project's own, but for the defaults of the
//! three offload rules.

/// The one CFLEVEL.
pub const LEVEL: u64 = 5;

/// The highest threshold of an offload rule, in percent.
pub const PERCENT: u64 = 100;

/// The largest size of an offload rule, in units of 1,024 bytes.
pub const RULE_KILOBYTES: u64 = 64;

/// The highest DSBUFS.
pub const BUFFERS: u64 = 9_999;

/// The highest DEFPRTY.
pub const HIGHEST_PRIORITY: u64 = 9;

/// The highest MAXDEPTH, which is its default too.
pub const DEEPEST: u64 = 999_999_999;

/// The highest MAXMSGL, in bytes.
pub const LONGEST_MESSAGE: u64 = 104_857_600;

/// The default of MAXMSGL, in bytes.
pub const MESSAGE_DEFAULT: u64 = 4_194_304;

/// The default of DSBLOCK, in bytes.
pub const BLOCK_DEFAULT: u32 = 262_144;

/// The default thresholds of the three offload rules, in percent.
pub const THRESHOLD_DEFAULTS: [u64; 3] = [70, 80, 90];

/// The default sizes of the three offload rules, in units of 1,024 bytes.
pub const SIZE_DEFAULTS: [u64; 3] = [32, 4, 0];
