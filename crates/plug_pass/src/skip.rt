//! The plugin `skip`.

ghost use Rattle.std.specs.Prelude.{◌≡◌, ◌<◌, IfOk, [], Some};
ghost use Rattle.plug_pass.specs.SkipRule.{skip_rule};
ghost use Rattle.plug_pass.specs.SkipSettings.{IsValidSkip};

use crate::skip_conf::SkipConf;
use plugin_trait::{Outcome, Plugin, Silent, Steps};
use std::alloc::{AllocError, Global};
use ts_packet::{Labels, Packet};

/// Drops the first packets.
#[derive(Drop)]
pub struct SkipSteps {
    /// How many packets are dropped in all.
    count: u64,
    /// How many packets are still to be dropped.
    left: u64,
    /// For how many positions after the last mark there is room.
    buffer: usize,
}

/// The plugin `skip`.
pub type Skip = Silent<SkipSteps>;

/// A plugin that met no cell yet.
pub fn new_skip(_alloc: Global, conf: &SkipConf, buffer: usize) -> Result<Skip, AllocError>
    requires { IsValidSkip conf.now }
    ensures rule { IfOk result (λ plugin. ⟦<Skip as Plugin>⟧.rule plugin ≡ skip_rule conf.now.operand) }
    ensures fresh { IfOk result (λ plugin. ⟦<Skip as Plugin>⟧.stands_for plugin [] 0) }
    ensures preallocated { IfOk result (λ plugin. ⟦<Skip as Plugin>⟧.preallocated plugin ≡ Some buffer) }
{
    let steps = SkipSteps {
        count: conf.operand,
        left: conf.operand,
        buffer,
    };
    Ok(Silent { steps })
}

impl Steps for SkipSteps {
    ghost use Rattle.std.specs.Prelude.{◌≡◌, ◌-◌, Some, refl};
    ghost use Rattle.plug_pass.specs.SkipRule.{skip_rule};
    ghost use Rattle.plugin_trait.specs.LiveCount.{live_count};

    ghost rule = { λ s. skip_rule s.count };

    ghost stands_for = { λ s history. s.left ≡ s.count - live_count history };

    ghost preallocated = { λ s. Some s.buffer };

    #[inline]
    fn step(&mut self, _at: u64, _packet: &mut Packet, _labels: &mut Labels) -> Outcome {
        if self.left == 0 {
            return Outcome::Pass;
        }
        self.left -= 1;
        Outcome::Drop
    }

    fn pass_over(&mut self, _at: u64) {}

    fn has_fault(&self, _cut: u64) -> bool {
        false
    }

    ghost quiet = { λ plugin. record { no_lines = λ history packet labels. refl; no_summary = λ history. refl } };

    ghost never_agrees = { λ plugin history. refl };
}
