//! The plugin `filter`.

ghost use Rattle.std.specs.Prelude.{◌≡◌, IfOk, [], Some};
ghost use Rattle.plug_pass.specs.FilterRule.{filter_rule};
ghost use Rattle.plug_pass.specs.FilterSettings.{IsValidFilter};

use crate::filter_conf::FilterConf;
use plugin_options::{LabelList, PidSet};
use plugin_trait::{Outcome, Plugin, Silent, Steps};
use std::alloc::{AllocError, Global};
use ts_packet::{Labels, Packet};

/// Selects the packets that meet one of its conditions, or with `negate` those that meet none. It passes these alone,
/// or, where it sets labels, every packet, and adds the labels to those of the selected ones.
#[derive(Drop)]
pub struct FilterSteps {
    pids: PidSet,
    pcr: bool,
    unit_start: bool,
    scrambled: bool,
    label: LabelList,
    negate: bool,
    stuffing: bool,
    set_label: LabelList,
    buffer: usize,
}

/// The plugin `filter`.
pub type Filter = Silent<FilterSteps>;

/// A plugin that met no cell yet. It takes room for its table of PIDs and its lists of labels, and its steps take
/// none.
pub fn new_filter(alloc: Global, conf: &FilterConf, buffer: usize) -> Result<Filter, AllocError>
    requires { IsValidFilter conf.now }
    ensures rule { IfOk result (λ plugin. ⟦<Filter as Plugin>⟧.rule plugin ≡ filter_rule conf.now) }
    ensures fresh { IfOk result (λ plugin. ⟦<Filter as Plugin>⟧.stands_for plugin [] 0) }
    ensures preallocated { IfOk result (λ plugin. ⟦<Filter as Plugin>⟧.preallocated plugin ≡ Some buffer) }
{
    let steps = FilterSteps {
        pids: PidSet::of(alloc, &conf.pid)?,
        pcr: conf.pcr,
        unit_start: conf.unit_start,
        scrambled: conf.scrambled,
        label: LabelList::of(alloc, &conf.label)?,
        negate: conf.negate,
        stuffing: conf.stuffing,
        set_label: LabelList::of(alloc, &conf.set_label)?,
        buffer,
    };
    Ok(Silent { steps })
}

impl FilterSteps {
    ghost use Rattle.plug_pass.specs.FilterRule.{meets_condition, selects};
    ghost use Rattle.plug_pass.specs.FilterState.{conf_of};

    // Whether one of the conditions that are given holds of the packet or of its labels.
    #[inline]
    fn meets_condition(&self, packet: &Packet, labels: Labels) -> bool
        ensures { result ≡ meets_condition (conf_of self.now) packet.now labels }
    {
        self.pids.has(packet.pid())
            || self.pcr && packet.pcr().is_some()
            || self.unit_start && packet.unit_start()
            || self.scrambled && packet.scrambling() != 0
            || labels.shares(self.label.labels())
    }

    // Whether the packet is selected.
    #[inline]
    fn selects(&self, packet: &Packet, labels: Labels) -> bool
        ensures { result ≡ selects (conf_of self.now) packet.now labels }
    {
        self.meets_condition(packet, labels) != self.negate
    }
}

impl Steps for FilterSteps {
    ghost use Rattle.std.specs.Prelude.{Some, refl};
    ghost use Rattle.plug_pass.specs.FilterRule.{filter_rule};
    ghost use Rattle.plug_pass.specs.FilterState.{conf_of};

    ghost rule = { λ s. filter_rule (conf_of s) };

    ghost stands_for = { λ s history. Unit {0} };

    ghost preallocated = { λ s. Some s.buffer };

    // Inlined: otherwise the loop of `steps` has a call for each cell.
    #[inline(always)]
    fn step(&mut self, _at: u64, packet: &mut Packet, labels: &mut Labels) -> Outcome {
        let is_selected = self.selects(packet, *labels);
        if !self.set_label.is_empty() {
            if is_selected {
                *labels = labels.union(self.set_label.labels());
            }
            return Outcome::Pass;
        }
        if is_selected {
            return Outcome::Pass;
        }
        if self.stuffing {
            *packet = Packet::null();
            return Outcome::Pass;
        }
        Outcome::Drop
    }

    fn pass_over(&mut self, _at: u64) {}

    fn has_fault(&self, _cut: u64) -> bool {
        false
    }

    ghost quiet = { λ plugin. record { no_lines = λ history packet labels. refl; no_summary = λ history. refl } };

    ghost never_agrees = { λ plugin history. refl };
}
