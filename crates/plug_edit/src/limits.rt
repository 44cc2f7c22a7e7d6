//! The greatest numbers that options of the editors take, besides PIDs.

/// The greatest number of a service, a transport stream, a network or a CA system.
pub const LAST_ID: u64 = 65535;

/// The greatest version_number.
pub const LAST_VERSION: u64 = 31;

/// The greatest stream_type and service_type.
pub const LAST_TYPE: u64 = 255;

/// The greatest running_status.
pub const LAST_STATUS: u64 = 7;

/// The greatest free_CA_mode.
pub const LAST_MODE: u64 = 1;

/// The greatest descriptor_tag.
pub const LAST_TAG: u64 = 255;
