//! The greatest numbers that options take.
use ts_packet::{LABEL_COUNT, NULL_PID, PAYLOAD_SIZE};

/// The greatest PID.
pub const LAST_PID: u64 = NULL_PID as u64;

/// The greatest label.
pub const LAST_LABEL: u64 = LABEL_COUNT as u64 - 1;

/// The greatest offset in a payload, in bytes.
pub const LAST_OFFSET: u64 = PAYLOAD_SIZE as u64 - 1;

/// The greatest number where an option has no other limit: 2^60.
pub const MOST_NUMBER: u64 = 1 << 60;

/// The greatest count of packets, that of `skip` and of the input `null`: 2^40.
pub const MOST_PACKETS: u64 = 1 << 40;

/// The greatest window in packets, that `compact` and `rmorphan` keep before they give one.
pub const MOST_WINDOW: u64 = 100_000;

/// The greatest number of pairs of `remap`.
pub const MOST_PAIRS: usize = 1000;

/// The greatest number of bytes of a value that has no other limit: 2^60, which no word has.
pub const MOST_BYTES: usize = 1 << 60;

/// The greatest number of a service (ISO/IEC 13818-1, 2.4.4.5).
pub const LAST_SERVICE: u64 = 65535;
