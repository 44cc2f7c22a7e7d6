//! The PIDs of tables that are edited or kept, and how many services there may be.

/// The PID of the PAT (ISO/IEC 13818-1, 2.4.4.4).
pub(crate) const PAT_PID: u16 = 0;

/// The PID of the SDT (ETSI EN 300 468, 5.1.3).
pub(crate) const SDT_PID: u16 = 17;

/// The PID of the NIT (ETSI EN 300 468, 5.1.3).
pub(crate) const NIT_PID: u16 = 16;

/// The PID of EITs (ETSI EN 300 468, 5.1.3).
pub(crate) const EIT_PID: u16 = 18;

/// The PID of the TDT and the TOT (ETSI EN 300 468, 5.1.3).
pub(crate) const TIME_PID: u16 = 20;

/// The greatest PID whose packets pass even if the PMT of a service that is removed has the PID.
pub(crate) const LAST_FIXED_PID: u16 = 31;

/// The most services of a plugin.
pub(crate) const MOST_SERVICES: usize = 62;
