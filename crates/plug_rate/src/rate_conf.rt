//! The settings of `rate`.
use crate::bounds::Bounds;
use plugin_options::NumberSet;

/// Settings of `rate`, which reports the bit rate over time.
#[derive(Drop)]
pub struct RateConf {
    /// The interval, in milliseconds, 100 to 3,600,000.
    pub interval: u64,
    /// The PIDs whose packets are counted, 0 to 8191; if empty, all.
    pub pid: NumberSet,
    /// The bounds of the bit rate.
    pub bounds: Bounds,
    /// The PID whose PCRs tell the time, 0 to 8191; without it the clock finds one.
    pub pcr_pid: Option<u64>,
}
