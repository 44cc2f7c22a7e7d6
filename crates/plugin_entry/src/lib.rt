//! What is said of a plugin in one place: its settings come in, its name, options, plugin and help go out.
//! The layer above uses the clauses of `PluginSettings`, which tie them to the plugin's entry.
#![tactic(auto)]

mod plugin_help;
mod settings;

pub use plugin_help::PluginHelp;
pub use settings::PluginSettings;
