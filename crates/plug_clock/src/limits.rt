//! The rate and the period of the clock of PCRs, and the limits of a stream's clock.
use ts_packet::PACKET_SIZE;

/// Units of the system clock per second: it runs at 27 MHz (ISO/IEC 13818-1, 2.4.2.1).
pub const CLOCK_RATE: u64 = 27_000_000;

/// The period of a PCR, in units: its base has 33 bits and counts 300 units (ISO/IEC 13818-1, 2.4.3.5).
pub const CLOCK_PERIOD: u64 = 2_576_980_377_600;

/// How many units a packet takes at one bit per second: 188 bytes of 8 bits, 27,000,000 units per second.
pub const PACKET_UNITS: u64 = PACKET_SIZE as u64 * 8 * CLOCK_RATE;

/// The greatest number of units, and of positions, that a stream's clock counts, where it stands still: 2^62 units are
/// 5,000 years.
pub const MOST_UNITS: u64 = 1 << 62;

/// For how many positions the PID whose PCRs are read may be without one before another PID is read, where no PID was
/// asked for.
pub const LONGEST_GAP: u64 = 100_000;
