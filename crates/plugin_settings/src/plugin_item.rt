//! One plugin of the chain, as the command line gives it.

ghost use Rattle.std.specs.Prelude.{◌≡◌, option_map};
ghost use Rattle.plugin_options.specs.LabelSet.{label_set};

use crate::plugin_conf::PluginConf;
use plugin_options::NumberSet;
use ts_packet::Labels;

/// One plugin of the chain.
#[derive(Drop)]
pub struct PluginItem {
    /// The settings of the plugin.
    pub conf: PluginConf,
    /// After how many of the packets that the plugin sees, 1 to 2^40, it gives its summary so far, and again after each
    /// further so many. With `None` it gives its summary at the end alone.
    pub every: Option<u64>,
    /// Whether a line before each summary so far says how many packets the plugin has seen.
    pub counts: bool,
    /// The labels, 0 to 31, one of which a packet must have so that the plugin sees it. With `None` the plugin sees
    /// every packet.
    pub only: Option<NumberSet>,
}

impl PluginItem {
    /// These labels as a set of bits; `None` where there are none.
    pub fn labels(&self) -> Option<Labels>
        ensures { result ≡ option_map label_set self.now.only }
    {
        match &self.only {
            Some(only) => Some(only.labels()),
            None => None,
        }
    }
}
