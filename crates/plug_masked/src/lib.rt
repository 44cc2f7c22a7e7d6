//! A plugin that sees only packets with some labels: what it sees of the cells, the rule that is made of the plugin's own, and
//! the plugin that is made of any other one. A plugin comes in and a plugin goes out. The layer above uses `rule_for` and the
//! clauses of `Plugin`.
#![tactic(auto)]

mod masked_plugin;

pub use masked_plugin::MaskedPlugin;
