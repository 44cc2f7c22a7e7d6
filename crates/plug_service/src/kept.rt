//! What `zap` keeps beside services.

/// What `zap` keeps beside services: tables on the PIDs of ETSI EN 300 468, 5.1.3.
#[derive(Clone, Copy, PartialEq, Eq)]
pub struct Kept {
    /// Packets on PID 16 pass, which has the NIT.
    pub nit: bool,
    /// The BATs on PID 17 are carried as they are.
    pub bat: bool,
    /// The EIT sections of the services are given on PID 18.
    pub eit: bool,
    /// Packets on PID 20 pass, which has the TDT and the TOT.
    pub time: bool,
}
