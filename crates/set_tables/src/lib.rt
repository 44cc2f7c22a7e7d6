//! The plugins `pat`, `cat`, `pmt`, `sdt`, `nit`, `time`, `eit`, `zap`, `svremove` and `svrename` as one type. Written by tools/plugins from plugins.txt.
//! A plugin of any of these types comes in, and a plugin that follows the same rule goes out. The layer above makes each by its
//! variant, and uses it by the clauses of `Plugin` alone.
#![tactic(auto)]

mod tables_plugin;

pub use tables_plugin::TablesPlugin;
