//! The limits of the options of `until`.

/// The greatest number of seconds: 2^32.
pub const MOST_SECONDS: u64 = 1 << 32;
