//! The PIDs of tables that are edited, and the greatest number of a service.

/// The PID of the PAT (ISO/IEC 13818-1, 2.4.4.4).
pub(crate) const PAT_PID: u16 = 0;

/// The PID of the NIT (ETSI EN 300 468, 5.1.3).
pub(crate) const NIT_PID: u16 = 16;

/// The PID of SDT and BAT (ETSI EN 300 468, 5.1.3).
pub(crate) const SDT_PID: u16 = 17;

/// The PID of EITs (ETSI EN 300 468, 5.1.3).
pub(crate) const EIT_PID: u16 = 18;

/// The greatest number of a service.
pub(crate) const LAST_SERVICE: u64 = 65535;
