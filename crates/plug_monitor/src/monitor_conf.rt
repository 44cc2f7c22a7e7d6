//! The settings of `monitor`.

/// Settings of `monitor`, which reports errors by the indicators of ETSI TR 101 290.
#[derive(Clone, Copy, PartialEq, Eq)]
pub struct MonitorConf {
    /// Indicators up to this priority are looked at, 1 to 3.
    pub priority: u64,
    /// The bit rate of the stream, in bits per second, 1 to 10,000,000,000; without it PCR_accuracy_error is not looked at.
    pub bitrate: Option<u64>,
    /// How long a PID of a service may be without a packet, in milliseconds, 1 to 3,600,000.
    pub pid_gap: u64,
    /// The PID whose PCRs tell the time, 0 to 8191; without it the clock finds one.
    pub pcr_pid: Option<u64>,
}
