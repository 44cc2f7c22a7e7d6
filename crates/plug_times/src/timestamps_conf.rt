//! The settings of `timestamps`.
use crate::shown::Shown;
use plugin_options::NumberSet;

/// Settings of `timestamps`, which reports clocks and time stamps.
#[derive(Drop)]
pub struct TimestampsConf {
    /// The PIDs that are looked at, 0 to 8191; if empty, all.
    pub pid: NumberSet,
    /// Which values have lines.
    pub shown: Shown,
}
