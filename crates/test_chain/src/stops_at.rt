//! A plugin for tests that stops at a position.
ghost use Rattle.std.specs.Prelude.{[]};
ghost use Rattle.plugin_trait.specs.HeardStands.{HeardStands};

use plugin_trait::{Heard, Outcome, Plugin, Silent, Steps};
use std::alloc::Global;
use ts_packet::{Labels, Packet};

/// Passes the packets before a position, and stops at the first packet from there on.
#[derive(Drop)]
pub(crate) struct StopsAtSteps {
    pub(crate) position: u64,
}

/// The plugin of these steps.
pub(crate) type StopsAt = Silent<StopsAtSteps>;

/// A plugin that stops at a position. It met no cell yet, and has no lines.
pub(crate) fn stopping(alloc: Global, position: u64) -> Heard<StopsAt>
    ensures { HeardStands ⟦<StopsAt as Plugin>⟧.rule ⟦<StopsAt as Plugin>⟧.stands_for result [] 0 }
{
    let steps = StopsAtSteps { position };
    Heard {
        plugin: Silent { steps },
        lines: Vec::new(alloc),
    }
}

impl Steps for StopsAtSteps {
    ghost use Rattle.std.specs.Prelude.{◌≡◌, ◌≤◌, None, length, nat_le, if◌then◌else◌, refl};
    ghost use Rattle.chain_model.specs.PluginRule.{passes, stops};
    ghost use Rattle.plugin_trait.specs.SilentRule.{silent_rule};

    ghost rule = { λ s. silent_rule
        (λ history packet. if nat_le s.position (length history) then stops else passes packet) };

    ghost stands_for = { λ s history. Unit {0} };

    ghost preallocated = { λ s. None };

    fn step(&mut self, at: u64, _packet: &mut Packet, _labels: &mut Labels) -> Outcome {
        if self.position <= at {
            return Outcome::Stop;
        }
        Outcome::Pass
    }

    fn pass_over(&mut self, _at: u64) {}

    fn has_fault(&self, _cut: u64) -> bool {
        false
    }

    ghost quiet = { λ plugin. record { no_lines = λ history packet labels. refl; no_summary = λ history. refl } };

    ghost never_agrees = { λ plugin history. refl };
}
