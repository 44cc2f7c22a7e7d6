//! The limits of the options of `restuff`.

/// The least rate, in bits per second.
pub const LEAST_RATE: u64 = 1_000;

/// The greatest rate, in bits per second.
pub const MOST_RATE: u64 = 1_000_000_000;

/// How many packets may wait where no number is given.
pub const DEFAULT_WINDOW: u64 = 10_000;
