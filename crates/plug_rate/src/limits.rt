//! The limits of the options of `rate`, and its unit of time.
use plug_clock::CLOCK_RATE;

/// Units of the 27 MHz clock in a millisecond.
pub const MILLISECOND: u64 = CLOCK_RATE / 1000;

/// The shortest interval, in milliseconds.
pub const LEAST_INTERVAL: u64 = 100;

/// The longest interval, in milliseconds: an hour.
pub const MOST_INTERVAL: u64 = 3_600_000;

/// The interval where none is given, in milliseconds.
pub const DEFAULT_INTERVAL: u64 = 1000;
