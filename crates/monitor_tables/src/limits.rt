//! The limits of tables that each stream has (ETSI TR 101 290, 5.2), in units of the 27 MHz clock.
use plug_clock::CLOCK_RATE;

/// Of the PAT: half a second (1.3).
pub const PAT_LIMIT: u64 = CLOCK_RATE / 2;

/// Of the CAT, where packets are scrambled: two seconds (2.6).
pub const CAT_LIMIT: u64 = 2 * CLOCK_RATE;

/// Of the NIT of the actual network: ten seconds (3.1).
pub const NIT_LIMIT: u64 = 10 * CLOCK_RATE;

/// Of the SDT of the actual stream: two seconds (3.5).
pub const SDT_LIMIT: u64 = 2 * CLOCK_RATE;

/// Of the TDT: thirty seconds (3.8).
pub const TDT_LIMIT: u64 = 30 * CLOCK_RATE;
