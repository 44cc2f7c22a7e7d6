//! Plugins that are driven by tables, and the tables that change without a new version before them.

use crate::some_plugin::SomePlugin;
use plug_psi::Changes;
use set_packets::PacketsPlugin;
use set_reports::ReportsPlugin;
use set_tables::TablesPlugin;
use std::alloc::AllocError;

/// A plugin that may be driven by tables. It explains a run, and no rule rests on it.
pub trait SeesTables {
    /// Adds the PIDs on which tables changed without a new version, where the plugin is one that is driven by them. After
    /// the report it knows all packets before the cut.
    fn add_changes(&self, changes: &mut Changes) -> Result<(), AllocError>;
}

/// Adds the PIDs of a plugin of some kind.
pub(crate) fn add_changes(plugin: &SomePlugin, changes: &mut Changes) -> Result<(), AllocError> {
    match plugin {
        SomePlugin::Packets(plugin) => add_of_packets(plugin, changes),
        SomePlugin::Tables(plugin) => add_of_tables(plugin, changes),
        SomePlugin::Reports(plugin) => add_of_reports(plugin, changes),
    }
}

fn add_of_packets(plugin: &PacketsPlugin, changes: &mut Changes) -> Result<(), AllocError> {
    match plugin {
        PacketsPlugin::Remap(plugin) => plugin.steps.add_changes(changes),
        _ => Ok(()),
    }
}

fn add_of_tables(plugin: &TablesPlugin, changes: &mut Changes) -> Result<(), AllocError> {
    match plugin {
        TablesPlugin::Pat(plugin) => plugin.steps.add_changes(changes),
        TablesPlugin::Cat(plugin) => plugin.steps.add_changes(changes),
        TablesPlugin::Pmt(plugin) => plugin.steps.add_changes(changes),
        TablesPlugin::Sdt(plugin) => plugin.steps.add_changes(changes),
        TablesPlugin::Nit(plugin) => plugin.steps.add_changes(changes),
        TablesPlugin::Zap(plugin) => plugin.steps.add_changes(changes),
        TablesPlugin::Svremove(plugin) => plugin.steps.add_changes(changes),
        TablesPlugin::Svrename(plugin) => plugin.steps.add_changes(changes),
        _ => Ok(()),
    }
}

fn add_of_reports(plugin: &ReportsPlugin, changes: &mut Changes) -> Result<(), AllocError> {
    match plugin {
        ReportsPlugin::Info(plugin) => plugin.add_changes(changes),
        ReportsPlugin::Tables(plugin) => plugin.add_changes(changes),
        _ => Ok(()),
    }
}
