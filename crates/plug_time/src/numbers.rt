//! The numbers of TDT and TOT, and the limits of `time`.

/// The PID of TDT and TOT (ETSI EN 300 468, 5.1.3).
pub const TIME_PID: u16 = 20;

/// The table_id of a TDT (ETSI EN 300 468, 5.2.5).
pub const TDT_ID: u8 = 0x70;

/// The table_id of a TOT (ETSI EN 300 468, 5.2.6).
pub const TOT_ID: u8 = 0x73;

/// The most sections that a payload has, of three bytes each after its pointer_field.
pub const MOST_SECTIONS: usize = 61;

/// The least shift in seconds, about 116 days earlier.
pub const LEAST_SHIFT: i64 = -10_000_000;

/// The greatest shift in seconds, about 116 days later.
pub const MOST_SHIFT: i64 = 10_000_000;
