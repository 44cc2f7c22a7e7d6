//! The plugins of all kinds as one type. Written by tools/plugins from plugins.txt.

ghost use Rattle.std.specs.Prelude.{◌≡◌, IfOk, []};
ghost use Rattle.plugin_settings.specs.Plugins.{is_silent, rule_of, preallocated_of};

use cell_rows::Mark;
use plug_analyze::Analyze;
use plug_edit::{new_edit_cat, new_edit_nit, new_edit_pat, new_edit_pmt, new_edit_sdt};
use plug_eit::new_eit;
use plug_end::Until;
use plug_info::Info;
use plug_inject::new_inject;
use plug_monitor::Monitor;
use plug_move::new_remap;
use plug_pass::{new_filter, new_pattern, new_skip, new_slice};
use plug_pcr::Pcrverify;
use plug_rate::Rate;
use plug_rename::new_rename;
use plug_restuff::new_restuff;
use plug_service::{new_svremove, new_zap};
use plug_tables::Tables;
use plug_time::new_time;
use plug_times::Timestamps;
use plug_watch::{Continuity, Count};
use plug_window::{new_compact, new_rmorphan};
use plugin_settings::PluginConf;
use plugin_trait::{Applied, Line, Outcome, Plugin};
use set_packets::PacketsPlugin;
use set_reports::ReportsPlugin;
use set_tables::TablesPlugin;
use std::alloc::{AllocError, Global};
use ts_packet::{Labels, Packet};
use ts_section::Section;

/// A plugin of any kind, to which each cell is shown, in the set that it is of: a proof by cases of many plugins takes more than
/// several of few.
#[derive(Drop)]
pub(crate) enum SomePlugin {
    Packets(PacketsPlugin),
    Reports(ReportsPlugin),
    Tables(TablesPlugin),
}

// The same expression for the plugin of each variant.
macro_rules! each_plugin {
    ($some:expr, $plugin:ident => $does:expr) => {
        match $some {
            SomePlugin::Packets($plugin) => $does,
            SomePlugin::Reports($plugin) => $does,
            SomePlugin::Tables($plugin) => $does,
        }
    };
}

// A plugin of one kind, where there is one, as a plugin of any kind.
macro_rules! made {
    ($new:expr, $variant:path, $set:path) => {
        match $new {
            Ok(plugin) => Ok($set($variant(plugin))),
            Err(error) => Err(error),
        }
    };
}

// The plugin of these settings as a plugin of any kind.
macro_rules! made_of {
    ($settings:expr, $alloc:expr, $sections:expr, $buffer:expr) => {
        match $settings {
            PluginConf::Filter(conf) => made!(new_filter($alloc,conf,$buffer), PacketsPlugin::Filter, SomePlugin::Packets),
            PluginConf::Skip(conf) => made!(new_skip($alloc,conf,$buffer), PacketsPlugin::Skip, SomePlugin::Packets),
            PluginConf::Slice(conf) => made!(new_slice($alloc,conf,$buffer), PacketsPlugin::Slice, SomePlugin::Packets),
            PluginConf::Pattern(conf) => made!(new_pattern($alloc,conf,$buffer), PacketsPlugin::Pattern, SomePlugin::Packets),
            PluginConf::Until(conf) => made!(Until::new($alloc,conf,$buffer), PacketsPlugin::Until, SomePlugin::Packets),
            PluginConf::Count(conf) => made!(Count::new($alloc,conf,$buffer), ReportsPlugin::Count, SomePlugin::Reports),
            PluginConf::Continuity(conf) => made!(Continuity::new($alloc,&conf.counters,$buffer), ReportsPlugin::Continuity, SomePlugin::Reports),
            PluginConf::Remap(conf) => made!(new_remap($alloc,conf,$buffer), PacketsPlugin::Remap, SomePlugin::Packets),
            PluginConf::Inject(conf) => made!(new_inject($alloc,conf,$sections), PacketsPlugin::Inject, SomePlugin::Packets),
            PluginConf::Pat(conf) => made!(new_edit_pat($alloc,conf,$buffer), TablesPlugin::Pat, SomePlugin::Tables),
            PluginConf::Cat(conf) => made!(new_edit_cat($alloc,conf,$buffer), TablesPlugin::Cat, SomePlugin::Tables),
            PluginConf::Pmt(conf) => made!(new_edit_pmt($alloc,conf,$buffer), TablesPlugin::Pmt, SomePlugin::Tables),
            PluginConf::Sdt(conf) => made!(new_edit_sdt($alloc,conf,$buffer), TablesPlugin::Sdt, SomePlugin::Tables),
            PluginConf::Nit(conf) => made!(new_edit_nit($alloc,conf,$buffer), TablesPlugin::Nit, SomePlugin::Tables),
            PluginConf::Time(conf) => made!(new_time($alloc,conf,$buffer), TablesPlugin::Time, SomePlugin::Tables),
            PluginConf::Eit(conf) => made!(new_eit($alloc,conf,$buffer), TablesPlugin::Eit, SomePlugin::Tables),
            PluginConf::Zap(conf) => made!(new_zap($alloc,conf,$buffer), TablesPlugin::Zap, SomePlugin::Tables),
            PluginConf::Svremove(conf) => made!(new_svremove($alloc,conf,$buffer), TablesPlugin::Svremove, SomePlugin::Tables),
            PluginConf::Svrename(conf) => made!(new_rename($alloc,conf,$buffer), TablesPlugin::Svrename, SomePlugin::Tables),
            PluginConf::Analyze(conf) => made!(Analyze::new($alloc,conf,$buffer), ReportsPlugin::Analyze, SomePlugin::Reports),
            PluginConf::Info(conf) => made!(Info::new($alloc,conf,$buffer), ReportsPlugin::Info, SomePlugin::Reports),
            PluginConf::Tables(conf) => made!(Tables::new($alloc,conf,$buffer), ReportsPlugin::Tables, SomePlugin::Reports),
            PluginConf::Compact(conf) => made!(new_compact($alloc,&conf.window,$buffer), PacketsPlugin::Compact, SomePlugin::Packets),
            PluginConf::Rmorphan(conf) => made!(new_rmorphan($alloc,&conf.window), PacketsPlugin::Rmorphan, SomePlugin::Packets),
            PluginConf::Pcrverify(conf) => made!(Pcrverify::new($alloc,conf,$buffer), ReportsPlugin::Pcrverify, SomePlugin::Reports),
            PluginConf::Timestamps(conf) => made!(Timestamps::new($alloc,conf,$buffer), ReportsPlugin::Timestamps, SomePlugin::Reports),
            PluginConf::Rate(conf) => made!(Rate::new($alloc,conf,$buffer), ReportsPlugin::Rate, SomePlugin::Reports),
            PluginConf::Monitor(conf) => made!(Monitor::new($alloc,conf,$buffer), ReportsPlugin::Monitor, SomePlugin::Reports),
            PluginConf::Restuff(conf) => made!(new_restuff($alloc,conf,$buffer), PacketsPlugin::Restuff, SomePlugin::Packets),
        }
    };
}

impl SomePlugin {
    ghost use Rattle.plugin_settings.specs.Plugins.{IsValid};

    /// The plugin of these settings before any cell. `sections` are those of the file that the settings name.
    /// `buffer` is the number of positions that the chain holds; a plugin for which `preallocated_of` gives that number
    /// allocates its memory for so many positions after the greatest mark here.
    pub(crate) fn of(
        alloc: Global,
        conf: &PluginConf,
        sections: Vec<Section>,
        buffer: usize,
    ) -> Result<SomePlugin, AllocError>
        requires { IsValid conf.now }
        ensures rule { IfOk result (λ plugin. ⟦<SomePlugin as Plugin>⟧.rule plugin ≡ rule_of conf.now sections.items) }
        ensures fresh { IfOk result (λ plugin. ⟦<SomePlugin as Plugin>⟧.stands_for plugin [] 0) }
        ensures preallocated { IfOk result (λ plugin. ⟦<SomePlugin as Plugin>⟧.preallocated plugin ≡ preallocated_of conf.now buffer) }
        ensures silent { IfOk result (λ plugin. ⟦<SomePlugin as Plugin>⟧.silent plugin ≡ is_silent conf.now) }
    {
        made_of!(conf, alloc, sections, buffer)
    }
}

impl Plugin for SomePlugin {
    ghost use Rattle.set_packets.specs.contracts.packets_plugin.PacketsPluginPlugin.TheImpl.Laws.{lawful as packets_laws};
    ghost use Rattle.set_reports.specs.contracts.reports_plugin.ReportsPluginPlugin.TheImpl.Laws.{lawful as reports_laws};
    ghost use Rattle.set_tables.specs.contracts.tables_plugin.TablesPluginPlugin.TheImpl.Laws.{lawful as tables_laws};
    ghost use Rattle.plugin_set.specs.declared.some_plugin.SomePlugin.TheVariants.{Packets as MadePackets, Reports as MadeReports, Tables as MadeTables};

    ghost rule = { elim [
      | MadePackets p ↦ ⟦<PacketsPlugin as Plugin>⟧.rule p
      | MadeReports p ↦ ⟦<ReportsPlugin as Plugin>⟧.rule p
      | MadeTables p ↦ ⟦<TablesPlugin as Plugin>⟧.rule p
    ] };

    ghost stands_for = { elim [
      | MadePackets p ↦ ⟦<PacketsPlugin as Plugin>⟧.stands_for p
      | MadeReports p ↦ ⟦<ReportsPlugin as Plugin>⟧.stands_for p
      | MadeTables p ↦ ⟦<TablesPlugin as Plugin>⟧.stands_for p
    ] };

    ghost preallocated = { elim [
      | MadePackets p ↦ ⟦<PacketsPlugin as Plugin>⟧.preallocated p
      | MadeReports p ↦ ⟦<ReportsPlugin as Plugin>⟧.preallocated p
      | MadeTables p ↦ ⟦<TablesPlugin as Plugin>⟧.preallocated p
    ] };

    ghost silent = { elim [
      | MadePackets p ↦ ⟦<PacketsPlugin as Plugin>⟧.silent p
      | MadeReports p ↦ ⟦<ReportsPlugin as Plugin>⟧.silent p
      | MadeTables p ↦ ⟦<TablesPlugin as Plugin>⟧.silent p
    ] };

    fn step(&mut self, at: u64, packet: &mut Packet, labels: &mut Labels) -> Outcome {
        each_plugin!(self, plugin => plugin.step(at, packet, labels))
    }

    fn pass_over(&mut self, at: u64) {
        each_plugin!(self, plugin => plugin.pass_over(at))
    }

    fn steps(
        &mut self,
        at: u64,
        packets: &mut [Packet],
        marks: &mut [Mark],
        noted: &mut bool,
    ) -> Applied {
        each_plugin!(self, plugin => plugin.steps(at, packets, marks, noted))
    }

    fn note(&mut self, written: u64, lines: &mut Vec<Line>) -> Result<(), AllocError> {
        each_plugin!(self, plugin => plugin.note(written, lines))
    }

    fn summary(&self, at: u64, lines: &mut Vec<Line>) -> Result<(), AllocError> {
        each_plugin!(self, plugin => plugin.summary(at, lines))
    }

    fn agreed(&self) -> bool {
        each_plugin!(self, plugin => plugin.agreed())
    }

    fn has_fault(&self, cut: u64) -> bool {
        each_plugin!(self, plugin => plugin.has_fault(cut))
    }

    ghost starts_open = { elim [
      | MadePackets p ↦ λ history mark stands. packets_laws.starts_open p history mark stands
      | MadeReports p ↦ λ history mark stands. reports_laws.starts_open p history mark stands
      | MadeTables p ↦ λ history mark stands. tables_laws.starts_open p history mark stands
    ] };
}
