//! The plugins of the set `tables` as one type. Written by tools/plugins from plugins.txt.

use cell_rows::Mark;
use plug_edit::{EditCat, EditNit, EditPat, EditPmt, EditSdt};
use plug_eit::Eit;
use plug_rename::Rename;
use plug_service::{Svremove, Zap};
use plug_time::Time;
use plugin_trait::{Applied, Line, Outcome, Plugin};
use std::alloc::AllocError;
use ts_packet::{Labels, Packet};

/// A plugin of this set, to which each cell is shown.
#[derive(Drop)]
pub enum TablesPlugin {
    Pat(EditPat),
    Cat(EditCat),
    Pmt(EditPmt),
    Sdt(EditSdt),
    Nit(EditNit),
    Time(Time),
    Eit(Eit),
    Zap(Zap),
    Svremove(Svremove),
    Svrename(Rename),
}

// The same expression for the plugin of each variant.
macro_rules! each_plugin {
    ($some:expr, $plugin:ident => $does:expr) => {
        match $some {
            TablesPlugin::Pat($plugin) => $does,
            TablesPlugin::Cat($plugin) => $does,
            TablesPlugin::Pmt($plugin) => $does,
            TablesPlugin::Sdt($plugin) => $does,
            TablesPlugin::Nit($plugin) => $does,
            TablesPlugin::Time($plugin) => $does,
            TablesPlugin::Eit($plugin) => $does,
            TablesPlugin::Zap($plugin) => $does,
            TablesPlugin::Svremove($plugin) => $does,
            TablesPlugin::Svrename($plugin) => $does,
        }
    };
}

impl Plugin for TablesPlugin {
    ghost use Rattle.std.specs.Prelude.{refl};
    ghost use Rattle.set_tables.specs.declared.tables_plugin.TablesPlugin.TheVariants.{Pat as MadePat, Cat as MadeCat, Pmt as MadePmt, Sdt as MadeSdt, Nit as MadeNit, Time as MadeTime, Eit as MadeEit, Zap as MadeZap, Svremove as MadeSvremove, Svrename as MadeSvrename};

    ghost rule = { elim [
      | MadePat p ↦ ⟦<EditPat as Plugin>⟧.rule p
      | MadeCat p ↦ ⟦<EditCat as Plugin>⟧.rule p
      | MadePmt p ↦ ⟦<EditPmt as Plugin>⟧.rule p
      | MadeSdt p ↦ ⟦<EditSdt as Plugin>⟧.rule p
      | MadeNit p ↦ ⟦<EditNit as Plugin>⟧.rule p
      | MadeTime p ↦ ⟦<Time as Plugin>⟧.rule p
      | MadeEit p ↦ ⟦<Eit as Plugin>⟧.rule p
      | MadeZap p ↦ ⟦<Zap as Plugin>⟧.rule p
      | MadeSvremove p ↦ ⟦<Svremove as Plugin>⟧.rule p
      | MadeSvrename p ↦ ⟦<Rename as Plugin>⟧.rule p
    ] };

    ghost stands_for = { elim [
      | MadePat p ↦ ⟦<EditPat as Plugin>⟧.stands_for p
      | MadeCat p ↦ ⟦<EditCat as Plugin>⟧.stands_for p
      | MadePmt p ↦ ⟦<EditPmt as Plugin>⟧.stands_for p
      | MadeSdt p ↦ ⟦<EditSdt as Plugin>⟧.stands_for p
      | MadeNit p ↦ ⟦<EditNit as Plugin>⟧.stands_for p
      | MadeTime p ↦ ⟦<Time as Plugin>⟧.stands_for p
      | MadeEit p ↦ ⟦<Eit as Plugin>⟧.stands_for p
      | MadeZap p ↦ ⟦<Zap as Plugin>⟧.stands_for p
      | MadeSvremove p ↦ ⟦<Svremove as Plugin>⟧.stands_for p
      | MadeSvrename p ↦ ⟦<Rename as Plugin>⟧.stands_for p
    ] };

    ghost preallocated = { elim [
      | MadePat p ↦ ⟦<EditPat as Plugin>⟧.preallocated p
      | MadeCat p ↦ ⟦<EditCat as Plugin>⟧.preallocated p
      | MadePmt p ↦ ⟦<EditPmt as Plugin>⟧.preallocated p
      | MadeSdt p ↦ ⟦<EditSdt as Plugin>⟧.preallocated p
      | MadeNit p ↦ ⟦<EditNit as Plugin>⟧.preallocated p
      | MadeTime p ↦ ⟦<Time as Plugin>⟧.preallocated p
      | MadeEit p ↦ ⟦<Eit as Plugin>⟧.preallocated p
      | MadeZap p ↦ ⟦<Zap as Plugin>⟧.preallocated p
      | MadeSvremove p ↦ ⟦<Svremove as Plugin>⟧.preallocated p
      | MadeSvrename p ↦ ⟦<Rename as Plugin>⟧.preallocated p
    ] };

    ghost silent = { elim [
      | MadePat p ↦ ⟦<EditPat as Plugin>⟧.silent p
      | MadeCat p ↦ ⟦<EditCat as Plugin>⟧.silent p
      | MadePmt p ↦ ⟦<EditPmt as Plugin>⟧.silent p
      | MadeSdt p ↦ ⟦<EditSdt as Plugin>⟧.silent p
      | MadeNit p ↦ ⟦<EditNit as Plugin>⟧.silent p
      | MadeTime p ↦ ⟦<Time as Plugin>⟧.silent p
      | MadeEit p ↦ ⟦<Eit as Plugin>⟧.silent p
      | MadeZap p ↦ ⟦<Zap as Plugin>⟧.silent p
      | MadeSvremove p ↦ ⟦<Svremove as Plugin>⟧.silent p
      | MadeSvrename p ↦ ⟦<Rename as Plugin>⟧.silent p
    ] };

    fn step(&mut self, at: u64, packet: &mut Packet, labels: &mut Labels) -> Outcome {
        each_plugin!(self, plugin => plugin.step(at, packet, labels))
    }

    fn pass_over(&mut self, at: u64) {
        each_plugin!(self, plugin => plugin.pass_over(at))
    }

    fn steps(
        &mut self,
        at: u64,
        packets: &mut [Packet],
        marks: &mut [Mark],
        noted: &mut bool,
    ) -> Applied {
        each_plugin!(self, plugin => plugin.steps(at, packets, marks, noted))
    }

    fn note(&mut self, written: u64, lines: &mut Vec<Line>) -> Result<(), AllocError> {
        each_plugin!(self, plugin => plugin.note(written, lines))
    }

    fn summary(&self, at: u64, lines: &mut Vec<Line>) -> Result<(), AllocError> {
        each_plugin!(self, plugin => plugin.summary(at, lines))
    }

    fn agreed(&self) -> bool {
        each_plugin!(self, plugin => plugin.agreed())
    }

    fn has_fault(&self, cut: u64) -> bool {
        each_plugin!(self, plugin => plugin.has_fault(cut))
    }

    ghost starts_open = { elim [
      | MadePat p ↦ λ history mark stands. refl
      | MadeCat p ↦ λ history mark stands. refl
      | MadePmt p ↦ λ history mark stands. refl
      | MadeSdt p ↦ λ history mark stands. refl
      | MadeNit p ↦ λ history mark stands. refl
      | MadeTime p ↦ λ history mark stands. refl
      | MadeEit p ↦ λ history mark stands. refl
      | MadeZap p ↦ λ history mark stands. refl
      | MadeSvremove p ↦ λ history mark stands. refl
      | MadeSvrename p ↦ λ history mark stands. refl
    ] };
}
