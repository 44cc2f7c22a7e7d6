//! The plugins of the set `packets` as one type. Written by tools/plugins from plugins.txt.

use cell_rows::Mark;
use plug_end::Until;
use plug_inject::Inject;
use plug_move::Remap;
use plug_pass::{Filter, Pattern, Skip, Slice};
use plug_restuff::Restuff;
use plug_window::{Compact, Rmorphan};
use plugin_trait::{Applied, Line, Outcome, Plugin};
use std::alloc::AllocError;
use ts_packet::{Labels, Packet};

/// A plugin of this set, to which each cell is shown.
#[derive(Drop)]
pub enum PacketsPlugin {
    Filter(Filter),
    Skip(Skip),
    Slice(Slice),
    Pattern(Pattern),
    Until(Until),
    Remap(Remap),
    Inject(Inject),
    Compact(Compact),
    Rmorphan(Rmorphan),
    Restuff(Restuff),
}

// The same expression for the plugin of each variant.
macro_rules! each_plugin {
    ($some:expr, $plugin:ident => $does:expr) => {
        match $some {
            PacketsPlugin::Filter($plugin) => $does,
            PacketsPlugin::Skip($plugin) => $does,
            PacketsPlugin::Slice($plugin) => $does,
            PacketsPlugin::Pattern($plugin) => $does,
            PacketsPlugin::Until($plugin) => $does,
            PacketsPlugin::Remap($plugin) => $does,
            PacketsPlugin::Inject($plugin) => $does,
            PacketsPlugin::Compact($plugin) => $does,
            PacketsPlugin::Rmorphan($plugin) => $does,
            PacketsPlugin::Restuff($plugin) => $does,
        }
    };
}

impl Plugin for PacketsPlugin {
    ghost use Rattle.std.specs.Prelude.{refl};
    ghost use Rattle.set_packets.specs.declared.packets_plugin.PacketsPlugin.TheVariants.{Filter as MadeFilter, Skip as MadeSkip, Slice as MadeSlice, Pattern as MadePattern, Until as MadeUntil, Remap as MadeRemap, Inject as MadeInject, Compact as MadeCompact, Rmorphan as MadeRmorphan, Restuff as MadeRestuff};

    ghost rule = { elim [
      | MadeFilter p ↦ ⟦<Filter as Plugin>⟧.rule p
      | MadeSkip p ↦ ⟦<Skip as Plugin>⟧.rule p
      | MadeSlice p ↦ ⟦<Slice as Plugin>⟧.rule p
      | MadePattern p ↦ ⟦<Pattern as Plugin>⟧.rule p
      | MadeUntil p ↦ ⟦<Until as Plugin>⟧.rule p
      | MadeRemap p ↦ ⟦<Remap as Plugin>⟧.rule p
      | MadeInject p ↦ ⟦<Inject as Plugin>⟧.rule p
      | MadeCompact p ↦ ⟦<Compact as Plugin>⟧.rule p
      | MadeRmorphan p ↦ ⟦<Rmorphan as Plugin>⟧.rule p
      | MadeRestuff p ↦ ⟦<Restuff as Plugin>⟧.rule p
    ] };

    ghost stands_for = { elim [
      | MadeFilter p ↦ ⟦<Filter as Plugin>⟧.stands_for p
      | MadeSkip p ↦ ⟦<Skip as Plugin>⟧.stands_for p
      | MadeSlice p ↦ ⟦<Slice as Plugin>⟧.stands_for p
      | MadePattern p ↦ ⟦<Pattern as Plugin>⟧.stands_for p
      | MadeUntil p ↦ ⟦<Until as Plugin>⟧.stands_for p
      | MadeRemap p ↦ ⟦<Remap as Plugin>⟧.stands_for p
      | MadeInject p ↦ ⟦<Inject as Plugin>⟧.stands_for p
      | MadeCompact p ↦ ⟦<Compact as Plugin>⟧.stands_for p
      | MadeRmorphan p ↦ ⟦<Rmorphan as Plugin>⟧.stands_for p
      | MadeRestuff p ↦ ⟦<Restuff as Plugin>⟧.stands_for p
    ] };

    ghost preallocated = { elim [
      | MadeFilter p ↦ ⟦<Filter as Plugin>⟧.preallocated p
      | MadeSkip p ↦ ⟦<Skip as Plugin>⟧.preallocated p
      | MadeSlice p ↦ ⟦<Slice as Plugin>⟧.preallocated p
      | MadePattern p ↦ ⟦<Pattern as Plugin>⟧.preallocated p
      | MadeUntil p ↦ ⟦<Until as Plugin>⟧.preallocated p
      | MadeRemap p ↦ ⟦<Remap as Plugin>⟧.preallocated p
      | MadeInject p ↦ ⟦<Inject as Plugin>⟧.preallocated p
      | MadeCompact p ↦ ⟦<Compact as Plugin>⟧.preallocated p
      | MadeRmorphan p ↦ ⟦<Rmorphan as Plugin>⟧.preallocated p
      | MadeRestuff p ↦ ⟦<Restuff as Plugin>⟧.preallocated p
    ] };

    ghost silent = { elim [
      | MadeFilter p ↦ ⟦<Filter as Plugin>⟧.silent p
      | MadeSkip p ↦ ⟦<Skip as Plugin>⟧.silent p
      | MadeSlice p ↦ ⟦<Slice as Plugin>⟧.silent p
      | MadePattern p ↦ ⟦<Pattern as Plugin>⟧.silent p
      | MadeUntil p ↦ ⟦<Until as Plugin>⟧.silent p
      | MadeRemap p ↦ ⟦<Remap as Plugin>⟧.silent p
      | MadeInject p ↦ ⟦<Inject as Plugin>⟧.silent p
      | MadeCompact p ↦ ⟦<Compact as Plugin>⟧.silent p
      | MadeRmorphan p ↦ ⟦<Rmorphan as Plugin>⟧.silent p
      | MadeRestuff p ↦ ⟦<Restuff as Plugin>⟧.silent p
    ] };

    fn step(&mut self, at: u64, packet: &mut Packet, labels: &mut Labels) -> Outcome {
        each_plugin!(self, plugin => plugin.step(at, packet, labels))
    }

    fn pass_over(&mut self, at: u64) {
        each_plugin!(self, plugin => plugin.pass_over(at))
    }

    fn steps(
        &mut self,
        at: u64,
        packets: &mut [Packet],
        marks: &mut [Mark],
        noted: &mut bool,
    ) -> Applied {
        each_plugin!(self, plugin => plugin.steps(at, packets, marks, noted))
    }

    fn note(&mut self, written: u64, lines: &mut Vec<Line>) -> Result<(), AllocError> {
        each_plugin!(self, plugin => plugin.note(written, lines))
    }

    fn summary(&self, at: u64, lines: &mut Vec<Line>) -> Result<(), AllocError> {
        each_plugin!(self, plugin => plugin.summary(at, lines))
    }

    fn agreed(&self) -> bool {
        each_plugin!(self, plugin => plugin.agreed())
    }

    fn has_fault(&self, cut: u64) -> bool {
        each_plugin!(self, plugin => plugin.has_fault(cut))
    }

    ghost starts_open = { elim [
      | MadeFilter p ↦ λ history mark stands. refl
      | MadeSkip p ↦ λ history mark stands. refl
      | MadeSlice p ↦ λ history mark stands. refl
      | MadePattern p ↦ λ history mark stands. refl
      | MadeUntil p ↦ λ history mark stands. stands.open_at_first
      | MadeRemap p ↦ λ history mark stands. refl
      | MadeInject p ↦ λ history mark stands. refl
      | MadeCompact p ↦ λ history mark stands. refl
      | MadeRmorphan p ↦ λ history mark stands. refl
      | MadeRestuff p ↦ λ history mark stands. refl
    ] };
}
