//! The settings of `continuity` by its words.
//!
//! The settings of the counters are in `plugin_notes`, where `analyze` and `info` use them; this struct around them is
//! here, since a type implements `PluginSettings` once.

use plugin_notes::ContinuityConf;

/// Settings of `continuity`: which counters it compares, and whether it mends them. Other plugins compare them too.
#[derive(Drop)]
pub struct ContinuityOptions {
    pub counters: ContinuityConf,
}
