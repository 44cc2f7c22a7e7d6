//! The plugin `time`.

ghost use Rattle.std.specs.Prelude.{◌≡◌, IfOk, [], Some};
ghost use Rattle.plug_time.specs.TimeRule.{time_rule};
ghost use Rattle.plug_time.specs.TimeSettings.{IsValidTime};

use crate::has_time::has_time;
use crate::moved_times::move_times;
use crate::time_conf::TimeConf;
use plugin_trait::{FirstFind, Outcome, Plugin, Silent, Steps};
use std::alloc::{AllocError, Global};
use ts_packet::{Labels, Packet};

/// Moves the times of TDT and TOT that lie whole in a packet.
#[derive(Drop)]
pub struct TimeSteps {
    /// By how many seconds they are later.
    shift: i64,
    /// The first position at which a packet had a time.
    found: FirstFind,
    /// For how many positions after the last mark there is room.
    buffer: usize,
}

/// The plugin `time`.
pub type Time = Silent<TimeSteps>;

/// A plugin that met no cell yet. It allocates nothing, here and in its steps.
pub fn new_time(_alloc: Global, conf: &TimeConf, buffer: usize) -> Result<Time, AllocError>
    requires { IsValidTime conf.now }
    ensures rule { IfOk result (λ plugin. ⟦<Time as Plugin>⟧.rule plugin ≡ time_rule conf.now.shift) }
    ensures fresh { IfOk result (λ plugin. ⟦<Time as Plugin>⟧.stands_for plugin [] 0) }
    ensures preallocated { IfOk result (λ plugin. ⟦<Time as Plugin>⟧.preallocated plugin ≡ Some buffer) }
{
    let steps = TimeSteps {
        shift: conf.shift,
        found: FirstFind::none(),
        buffer,
    };
    Ok(Silent { steps })
}

impl TimeSteps {
    /// Whether a packet had a TDT, or a TOT with a right CRC, that begins and ends in it.
    pub fn has_come(&self) -> bool {
        !self.found.is_none_below(u64::MAX)
    }
}

impl Steps for TimeSteps {
    ghost use Rattle.std.specs.Prelude.{Some, refl};
    ghost use Rattle.plugin_trait.specs.Finding.{IsFirstFind};
    ghost use Rattle.plug_time.specs.HasTime.{finds_time};
    ghost use Rattle.plug_time.specs.TimeRule.{time_rule};

    ghost rule = { λ s. time_rule s.shift };

    ghost stands_for = { λ s history. IsFirstFind finds_time history s.found };

    ghost preallocated = { λ s. Some s.buffer };

    #[inline]
    fn step(&mut self, at: u64, packet: &mut Packet, _labels: &mut Labels) -> Outcome {
        let found = has_time(packet);
        self.found.meet(at, found);
        move_times(packet, self.shift);
        Outcome::Pass
    }

    fn pass_over(&mut self, _at: u64) {}

    fn has_fault(&self, cut: u64) -> bool {
        self.found.is_none_below(cut)
    }

    ghost quiet = { λ plugin. record { no_lines = λ history packet labels. refl; no_summary = λ history. refl } };

    ghost never_agrees = { λ plugin history. refl };
}
