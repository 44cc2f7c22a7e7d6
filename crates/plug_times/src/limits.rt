//! The intervals that PCRs are compared with, in units of the 27 MHz clock.

/// Units in a microsecond.
pub const MICROSECOND: u64 = 27;

/// 40 ms, which ETSI TS 101 154, 4.1.5.1, asks for.
pub const DVB_INTERVAL: u64 = 1_080_000;

/// 100 ms, the most that ISO/IEC 13818-1, 2.7.2, allows.
pub const LONGEST_INTERVAL: u64 = 2_700_000;
