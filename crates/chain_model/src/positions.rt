//! The limit of positions.

/// Positions are below this number.
pub const POSITION_LIMIT: u64 = 1 << 60;
