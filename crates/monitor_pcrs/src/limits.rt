//! The limits of a step between two PCRs.
use plug_clock::CLOCK_RATE;

/// The longest step between two PCRs, in units of the 27 MHz clock: 100 ms (ISO/IEC 13818-1, 2.7.2; ETSI TR 101 290, 5.2.2).
pub const LONGEST_STEP: u64 = CLOCK_RATE / 10;

/// Units of the 27 MHz clock in a microsecond, by which two PCRs may be off, each by 500 ns (ISO/IEC 13818-1, 2.4.2.2).
pub const MICROSECOND: u64 = CLOCK_RATE / 1_000_000;
