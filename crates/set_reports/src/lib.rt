//! The plugins `count`, `continuity`, `analyze`, `info`, `tables`, `pcrverify`, `timestamps`, `rate` and `monitor` as one type. Written by tools/plugins from plugins.txt.
//! A plugin of any of these types comes in, and a plugin that follows the same rule goes out. The layer above makes each by its
//! variant, and uses it by the clauses of `Plugin` alone.
#![tactic(auto)]

mod reports_plugin;

pub use reports_plugin::ReportsPlugin;
