//! The limits of what tables ask for (ETSI TR 101 290, 5.2), in units of the 27 MHz clock, and of the numbers of keys.
use plug_clock::CLOCK_RATE;

/// Of the PMT of a service: half a second (1.5).
pub const PMT_LIMIT: u64 = CLOCK_RATE / 2;

/// Of PCRs on a PCR_PID: a second (2.3).
pub const CLOCK_LIMIT: u64 = CLOCK_RATE;

/// Of presentation time stamps: 700 ms (2.5).
pub const STAMP_LIMIT: u64 = CLOCK_RATE / 10 * 7;

/// Of the EIT present/following of a service: two seconds (3.6).
pub const EVENT_LIMIT: u64 = 2 * CLOCK_RATE;

/// The numbers of PMTs are below: 16 bits of the service, and 16 of which the PID has 13.
pub(crate) const PMT_NUMBERS: u64 = 1 << 30;

/// Those of PIDs.
pub(crate) const PID_NUMBERS: u64 = 1 << 16;

/// Those of the sections of the EIT present/following: 16 bits of the service, and one.
pub(crate) const EVENT_NUMBERS: u64 = 1 << 17;
