//! The plugins of the set `reports` as one type. Written by tools/plugins from plugins.txt.

use cell_rows::Mark;
use plug_analyze::Analyze;
use plug_info::Info;
use plug_monitor::Monitor;
use plug_pcr::Pcrverify;
use plug_rate::Rate;
use plug_tables::Tables;
use plug_times::Timestamps;
use plug_watch::{Continuity, Count};
use plugin_trait::{Applied, Line, Outcome, Plugin};
use std::alloc::AllocError;
use ts_packet::{Labels, Packet};

/// A plugin of this set, to which each cell is shown.
#[derive(Drop)]
pub enum ReportsPlugin {
    Count(Count),
    Continuity(Continuity),
    Analyze(Analyze),
    Info(Info),
    Tables(Tables),
    Pcrverify(Pcrverify),
    Timestamps(Timestamps),
    Rate(Rate),
    Monitor(Monitor),
}

// The same expression for the plugin of each variant.
macro_rules! each_plugin {
    ($some:expr, $plugin:ident => $does:expr) => {
        match $some {
            ReportsPlugin::Count($plugin) => $does,
            ReportsPlugin::Continuity($plugin) => $does,
            ReportsPlugin::Analyze($plugin) => $does,
            ReportsPlugin::Info($plugin) => $does,
            ReportsPlugin::Tables($plugin) => $does,
            ReportsPlugin::Pcrverify($plugin) => $does,
            ReportsPlugin::Timestamps($plugin) => $does,
            ReportsPlugin::Rate($plugin) => $does,
            ReportsPlugin::Monitor($plugin) => $does,
        }
    };
}

impl Plugin for ReportsPlugin {
    ghost use Rattle.std.specs.Prelude.{refl};
    ghost use Rattle.set_reports.specs.declared.reports_plugin.ReportsPlugin.TheVariants.{Count as MadeCount, Continuity as MadeContinuity, Analyze as MadeAnalyze, Info as MadeInfo, Tables as MadeTables, Pcrverify as MadePcrverify, Timestamps as MadeTimestamps, Rate as MadeRate, Monitor as MadeMonitor};

    ghost rule = { elim [
      | MadeCount p ↦ ⟦<Count as Plugin>⟧.rule p
      | MadeContinuity p ↦ ⟦<Continuity as Plugin>⟧.rule p
      | MadeAnalyze p ↦ ⟦<Analyze as Plugin>⟧.rule p
      | MadeInfo p ↦ ⟦<Info as Plugin>⟧.rule p
      | MadeTables p ↦ ⟦<Tables as Plugin>⟧.rule p
      | MadePcrverify p ↦ ⟦<Pcrverify as Plugin>⟧.rule p
      | MadeTimestamps p ↦ ⟦<Timestamps as Plugin>⟧.rule p
      | MadeRate p ↦ ⟦<Rate as Plugin>⟧.rule p
      | MadeMonitor p ↦ ⟦<Monitor as Plugin>⟧.rule p
    ] };

    ghost stands_for = { elim [
      | MadeCount p ↦ ⟦<Count as Plugin>⟧.stands_for p
      | MadeContinuity p ↦ ⟦<Continuity as Plugin>⟧.stands_for p
      | MadeAnalyze p ↦ ⟦<Analyze as Plugin>⟧.stands_for p
      | MadeInfo p ↦ ⟦<Info as Plugin>⟧.stands_for p
      | MadeTables p ↦ ⟦<Tables as Plugin>⟧.stands_for p
      | MadePcrverify p ↦ ⟦<Pcrverify as Plugin>⟧.stands_for p
      | MadeTimestamps p ↦ ⟦<Timestamps as Plugin>⟧.stands_for p
      | MadeRate p ↦ ⟦<Rate as Plugin>⟧.stands_for p
      | MadeMonitor p ↦ ⟦<Monitor as Plugin>⟧.stands_for p
    ] };

    ghost preallocated = { elim [
      | MadeCount p ↦ ⟦<Count as Plugin>⟧.preallocated p
      | MadeContinuity p ↦ ⟦<Continuity as Plugin>⟧.preallocated p
      | MadeAnalyze p ↦ ⟦<Analyze as Plugin>⟧.preallocated p
      | MadeInfo p ↦ ⟦<Info as Plugin>⟧.preallocated p
      | MadeTables p ↦ ⟦<Tables as Plugin>⟧.preallocated p
      | MadePcrverify p ↦ ⟦<Pcrverify as Plugin>⟧.preallocated p
      | MadeTimestamps p ↦ ⟦<Timestamps as Plugin>⟧.preallocated p
      | MadeRate p ↦ ⟦<Rate as Plugin>⟧.preallocated p
      | MadeMonitor p ↦ ⟦<Monitor as Plugin>⟧.preallocated p
    ] };

    ghost silent = { elim [
      | MadeCount p ↦ ⟦<Count as Plugin>⟧.silent p
      | MadeContinuity p ↦ ⟦<Continuity as Plugin>⟧.silent p
      | MadeAnalyze p ↦ ⟦<Analyze as Plugin>⟧.silent p
      | MadeInfo p ↦ ⟦<Info as Plugin>⟧.silent p
      | MadeTables p ↦ ⟦<Tables as Plugin>⟧.silent p
      | MadePcrverify p ↦ ⟦<Pcrverify as Plugin>⟧.silent p
      | MadeTimestamps p ↦ ⟦<Timestamps as Plugin>⟧.silent p
      | MadeRate p ↦ ⟦<Rate as Plugin>⟧.silent p
      | MadeMonitor p ↦ ⟦<Monitor as Plugin>⟧.silent p
    ] };

    fn step(&mut self, at: u64, packet: &mut Packet, labels: &mut Labels) -> Outcome {
        each_plugin!(self, plugin => plugin.step(at, packet, labels))
    }

    fn pass_over(&mut self, at: u64) {
        each_plugin!(self, plugin => plugin.pass_over(at))
    }

    fn steps(
        &mut self,
        at: u64,
        packets: &mut [Packet],
        marks: &mut [Mark],
        noted: &mut bool,
    ) -> Applied {
        each_plugin!(self, plugin => plugin.steps(at, packets, marks, noted))
    }

    fn note(&mut self, written: u64, lines: &mut Vec<Line>) -> Result<(), AllocError> {
        each_plugin!(self, plugin => plugin.note(written, lines))
    }

    fn summary(&self, at: u64, lines: &mut Vec<Line>) -> Result<(), AllocError> {
        each_plugin!(self, plugin => plugin.summary(at, lines))
    }

    fn agreed(&self) -> bool {
        each_plugin!(self, plugin => plugin.agreed())
    }

    fn has_fault(&self, cut: u64) -> bool {
        each_plugin!(self, plugin => plugin.has_fault(cut))
    }

    ghost starts_open = { elim [
      | MadeCount p ↦ λ history mark stands. refl
      | MadeContinuity p ↦ λ history mark stands. refl
      | MadeAnalyze p ↦ λ history mark stands. refl
      | MadeInfo p ↦ λ history mark stands. refl
      | MadeTables p ↦ λ history mark stands. refl
      | MadePcrverify p ↦ λ history mark stands. refl
      | MadeTimestamps p ↦ λ history mark stands. refl
      | MadeRate p ↦ λ history mark stands. refl
      | MadeMonitor p ↦ λ history mark stands. refl
    ] };
}
