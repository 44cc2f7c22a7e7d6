//! The settings of `continuity`.
use plugin_options::NumberSet;

/// Settings of `continuity`, which checks continuity counters.
#[derive(Drop)]
pub struct ContinuityConf {
    /// The PIDs that are checked, 0 to 8191; if empty, all but 8191.
    pub pid: NumberSet,
    /// Whether counters are corrected.
    pub fix: bool,
}
