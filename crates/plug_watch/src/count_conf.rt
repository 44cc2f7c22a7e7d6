//! The settings of `count`.
use plugin_options::NumberSet;

/// Settings of `count`, which counts packets by PID.
#[derive(Drop)]
pub struct CountConf {
    /// The PIDs that are counted, 0 to 8191; if empty, all.
    pub pid: NumberSet,
    /// Whether the other PIDs are counted in place of those.
    pub negate: bool,
    /// Whether each counted packet has a line of its own.
    pub all: bool,
    /// Whether the summary has the total only.
    pub total: bool,
}
