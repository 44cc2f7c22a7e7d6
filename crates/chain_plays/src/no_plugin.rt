//! The plugin type of a chain that has no plugin.
//!
//! So the gate of a run is handed down and never called.
use plugin_trait::{Line, Outcome, Plugin};
use std::alloc::AllocError;
use ts_packet::{Labels, Packet};

/// Passes every packet. A play has no plugins, and this is the type that they would have.
#[derive(Drop)]
pub struct NoPlugin;

impl Plugin for NoPlugin {
    ghost use Rattle.std.specs.Prelude.{◌≡◌, ◌≤◌, None, length, refl, true};
    ghost use Rattle.chain_model.specs.PluginRule.{passes};
    ghost use Rattle.plugin_trait.specs.SilentRule.{silent_rule};

    ghost rule = { λ s. silent_rule (λ history packet. passes packet) };

    ghost stands_for = { λ s history mark. mark ≤ length history };

    ghost preallocated = { λ s. None };

    ghost silent = { λ _. true };

    fn step(&mut self, _at: u64, _packet: &mut Packet, _labels: &mut Labels) -> Outcome {
        Outcome::Pass
    }

    fn pass_over(&mut self, _at: u64) {}

    fn note(&mut self, _written: u64, _lines: &mut Vec<Line>) -> Result<(), AllocError> {
        Ok(())
    }

    fn agreed(&self) -> bool {
        false
    }

    fn summary(&self, _at: u64, _lines: &mut Vec<Line>) -> Result<(), AllocError> {
        Ok(())
    }

    fn has_fault(&self, _cut: u64) -> bool {
        false
    }

    ghost starts_open = { λ plugin history mark stands. refl };
}
