//! The settings of all plugins. The words after a plugin's name come in; settings that follow its rule go out, or the first
//! rule that they break. What plugins do with their settings is said here too, as a rule, but no plugin is made here:
//! `plugin_set` does that.
#![tactic(auto)]

mod laws;
mod plugin_conf;
mod plugin_item;
mod reading;
mod shared_options;

pub use laws::{only_joint_agrees, only_named_sections_count, silent_plugins_report_nothing};
pub use plugin_conf::{PluginConf, PluginKind};
pub use plugin_item::PluginItem;
pub use shared_options::further_options;
