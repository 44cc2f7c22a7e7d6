//! The numbers of EITs, and the limits of `eit`.

/// The PID of EITs (ETSI EN 300 468, 5.1.3).
pub const EIT_PID: u16 = 18;

/// The greatest number of a service and of an event.
pub const LAST_ID: u64 = 65_535;

/// The greatest running_status.
pub const LAST_STATUS: u64 = 7;

/// The greatest free_CA_mode.
pub const LAST_MODE: u64 = 1;
