//! A plugin of the chain, of any kind and with its labels.
//!
//! A plugin of a chain is five types, one in the other. `SomePlugin` is one of the plugins that there are, in one of three
//! sets: the methods of both ask which one it is, and their proofs are by cases. `MaybeEvery` gives the summary of any plugin so far too, where that
//! is asked for, and `MaskedPlugin` shows any plugin only the cells that it is to see; so what is counted is what the plugin
//! sees. Both are proved once, from the clauses of `Plugin`. `AnyPlugin` is the type that the layers above name: it has no
//! parameter, its constructor says which rule an item means, and it gives a plugin that sees every packet the whole
//! window in one call. Without it each function above would name the nested type, and its proof would write out what
//! that type's bound means.

ghost use Rattle.std.specs.Prelude.{◌≡◌, IfOk, []};
ghost use Rattle.plugin_settings.specs.Items.{is_silent_item, preallocated_of_item, rule_of_item};

use crate::idle::{Idle, why_idle};
use crate::sees_tables::{SeesTables, add_changes};
use crate::some_plugin::SomePlugin;
use cell_rows::Mark;
use plug_every::MaybeEvery;
use plug_masked::MaskedPlugin;
use plug_psi::Changes;
use plugin_settings::PluginItem;
use plugin_trait::{Applied, Line, Outcome, Plugin};
use std::alloc::{AllocError, Global};
use ts_packet::{Labels, Packet};
use ts_section::Section;

/// A plugin of the chain. It sees every packet, or only those that have one of its labels.
#[derive(Drop)]
pub struct AnyPlugin {
    masked: MaskedPlugin<MaybeEvery<SomePlugin>>,
}

impl AnyPlugin {
    ghost use Rattle.plugin_settings.specs.Items.{IsValidItem};

    /// The plugin of this item before any cell. `sections` are those of the file that its settings name
    /// (`table_file`); where they name none, they are not used. `buffer` is the number of positions that the chain
    /// holds; a plugin for which `preallocated_of_item` gives that number allocates its memory for so many positions after the
    /// greatest mark here.
    pub fn of(
        alloc: Global,
        item: &PluginItem,
        sections: Vec<Section>,
        buffer: usize,
    ) -> Result<AnyPlugin, AllocError>
        requires { IsValidItem item.now }
        ensures rule { IfOk result (λ plugin. ⟦<AnyPlugin as Plugin>⟧.rule plugin ≡ rule_of_item item.now sections.items) }
        ensures fresh { IfOk result (λ plugin. ⟦<AnyPlugin as Plugin>⟧.stands_for plugin [] 0) }
        ensures preallocated { IfOk result (λ plugin. ⟦<AnyPlugin as Plugin>⟧.preallocated plugin ≡ preallocated_of_item item.now buffer) }
        ensures silent { IfOk result (λ plugin. ⟦<AnyPlugin as Plugin>⟧.silent plugin ≡ is_silent_item item.now) }
    {
        let some = SomePlugin::of(alloc, &item.conf, sections, buffer)?;
        let plugin = MaybeEvery::of(alloc, some, item.every, item.counts, buffer)?;
        Ok(AnyPlugin {
            masked: MaskedPlugin {
                plugin,
                only: item.labels(),
            },
        })
    }

    /// Why the plugin was idle in all packets that it was shown; `None` where it was not, or where its kind edits,
    /// inserts and reads nothing. It is asked before the report.
    pub fn idle(&self) -> Result<Option<Idle>, AllocError> {
        why_idle(self.masked.plugin.plugin())
    }
}

impl SeesTables for AnyPlugin {
    fn add_changes(&self, changes: &mut Changes) -> Result<(), AllocError> {
        add_changes(self.masked.plugin.plugin(), changes)
    }
}

impl Plugin for AnyPlugin {
    ghost use Rattle.plugin_set.specs.contracts.some_plugin.SomePluginPlugin.TheImpl.Laws.{lawful as some_laws};
    ghost use Rattle.plug_every.specs.EveryStands.{opens_maybe};
    ghost use Rattle.plug_masked.specs.OnlyLabels.{shown, starts_open_for};

    ghost rule = { λ s. ⟦<MaskedPlugin<MaybeEvery<SomePlugin>> as Plugin>⟧.rule s.masked };

    ghost stands_for = { λ s. ⟦<MaskedPlugin<MaybeEvery<SomePlugin>> as Plugin>⟧.stands_for s.masked };

    ghost preallocated = { λ s. ⟦<MaskedPlugin<MaybeEvery<SomePlugin>> as Plugin>⟧.preallocated s.masked };

    ghost silent = { λ s. ⟦<MaskedPlugin<MaybeEvery<SomePlugin>> as Plugin>⟧.silent s.masked };

    fn step(&mut self, at: u64, packet: &mut Packet, labels: &mut Labels) -> Outcome {
        self.masked.step(at, packet, labels)
    }

    fn pass_over(&mut self, at: u64) {
        self.masked.pass_over(at);
    }

    // A plugin that sees every packet takes the whole window in one call.
    fn steps(
        &mut self,
        at: u64,
        packets: &mut [Packet],
        marks: &mut [Mark],
        noted: &mut bool,
    ) -> Applied {
        match self.masked.only {
            None => self.masked.plugin.steps(at, packets, marks, noted),
            Some(_) => self.masked.steps(at, packets, marks, noted),
        }
    }

    fn note(&mut self, written: u64, lines: &mut Vec<Line>) -> Result<(), AllocError> {
        self.masked.note(written, lines)
    }

    fn summary(&self, at: u64, lines: &mut Vec<Line>) -> Result<(), AllocError> {
        self.masked.summary(at, lines)
    }

    fn agreed(&self) -> bool {
        self.masked.agreed()
    }

    fn has_fault(&self, cut: u64) -> bool {
        self.masked.has_fault(cut)
    }

    ghost starts_open = { λ plugin history mark stands. starts_open_for plugin.masked.only
        (⟦<MaybeEvery<SomePlugin> as Plugin>⟧.rule plugin.masked.plugin)
        (opens_maybe ⟦<SomePlugin as Plugin>⟧.rule ⟦<SomePlugin as Plugin>⟧.stands_for some_laws.starts_open
        plugin.masked.plugin (shown plugin.masked.only history) mark stands) };
}
