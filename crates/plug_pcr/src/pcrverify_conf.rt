//! The settings of `pcrverify`.
use plugin_options::NumberSet;

/// Settings of `pcrverify`, which compares PCRs with a constant bit rate.
#[derive(Drop)]
pub struct PcrverifyConf {
    /// The bit rate, 1 to 10,000,000,000 bits per second.
    pub bitrate: u64,
    /// The greatest jitter that is no fault, 0 to 2,576,980,377,599 units of the 27 MHz clock.
    pub jitter_max: u64,
    /// The PIDs that are checked, 0 to 8191; if empty, all.
    pub pid: NumberSet,
}
