//! The plugin `slice`.

ghost use Rattle.std.specs.Prelude.{◌≡◌, IfOk, [], Some};
ghost use Rattle.plug_pass.specs.SliceRule.{slice_rule, is_between};
ghost use Rattle.plug_pass.specs.SliceSettings.{IsValidSlice};

use crate::slice_conf::SliceConf;
use plug_clock::StreamClock;
use plugin_trait::{Outcome, Plugin, Silent, Steps};
use std::alloc::{AllocError, Global};
use ts_packet::{Labels, Packet};

/// Drops, passes or overwrites packets by their index or by time, or stops: the option with the greatest number that is at
/// most the packet's decides. Its number is that of the packets met before, or the milliseconds of the clock with it.
#[derive(Drop)]
pub struct SliceSteps {
    drop: Option<u64>,
    null: Option<u64>,
    pass: Option<u64>,
    stop: Option<u64>,
    milliseconds: bool,
    pcr_pid: Option<u64>,
    /// How many packets were met.
    met: u64,
    /// The clock of the stream, which goes only where the numbers are milliseconds.
    clock: StreamClock,
    buffer: usize,
}

/// The plugin `slice`.
pub type Slice = Silent<SliceSteps>;

/// A plugin that met no cell yet. It allocates nothing, here and in its steps.
pub fn new_slice(_alloc: Global, conf: &SliceConf, buffer: usize) -> Result<Slice, AllocError>
    requires { IsValidSlice conf.now }
    ensures rule { IfOk result (λ plugin. ⟦<Slice as Plugin>⟧.rule plugin ≡ slice_rule conf.now) }
    ensures fresh { IfOk result (λ plugin. ⟦<Slice as Plugin>⟧.stands_for plugin [] 0) }
    ensures preallocated { IfOk result (λ plugin. ⟦<Slice as Plugin>⟧.preallocated plugin ≡ Some buffer) }
{
    let steps = SliceSteps {
        drop: conf.drop,
        null: conf.null,
        pass: conf.pass,
        stop: conf.stop,
        milliseconds: conf.milliseconds,
        pcr_pid: conf.pcr_pid,
        met: 0,
        clock: StreamClock::new(conf.pcr_pid),
        buffer,
    };
    Ok(Silent { steps })
}

impl SliceSteps {
    ghost use Rattle.std.specs.Prelude.{◌≡◌, ◌∷◌, ◌++◌, [], ℕ, List, length};
    ghost use Rattle.ts_packet.specs.declared.cell.Cell.{Cell as GivenCell};
    ghost use Rattle.ts_packet.specs.Cells.{Live};
    ghost use Rattle.plug_pass.specs.SliceRule.{decides, is_overtaken, number_of};
    ghost use Rattle.plug_pass.specs.SliceState.{IsClock, Sliced, conf_of};

    // The number of the packet at a position.
    fn number(&self, at: u64, packet: &Packet) -> u64
        ensures { (history : List GivenCell) (labels : ℕ) → Sliced self.now history → length history ≡ at
            → result ≡ number_of (conf_of self.now) history packet.now labels }
    {
        if self.milliseconds {
            self.clock.after(at, packet).milliseconds()
        } else {
            self.met
        }
    }

    // Where the numbers are milliseconds, the clock goes on with a packet at a position.
    fn tick(&mut self, at: u64, packet: &Packet)
        ensures follows { (history : List GivenCell) (labels : ℕ) → IsClock (conf_of self.old) self.old.clock history
            → length history ≡ at → IsClock (conf_of self.old) self.new.clock (history ++ Live packet.now labels ∷ []) }
        ensures rest { self.new ≡ record self.old { clock = self.new.clock } }
    {
        if self.milliseconds {
            self.clock = self.clock.after(at, packet);
        }
    }

    // Whether the option of this number decides about a packet with a number.
    fn decides(&self, number: u64, from: Option<u64>) -> bool
        ensures { result ≡ decides (conf_of self.now) number from }
    {
        match from {
            Some(from) => from <= number && !self.is_overtaken(number, from),
            None => false,
        }
    }

    // Whether an option has a greater number that is at most the packet's.
    fn is_overtaken(&self, number: u64, from: u64) -> bool
        ensures { result ≡ is_overtaken (conf_of self.now) number from }
    {
        is_between(from, number, self.drop)
            || is_between(from, number, self.null)
            || is_between(from, number, self.pass)
            || is_between(from, number, self.stop)
    }
}

// Whether the number is given, greater than the one and at most the index.
fn is_between(from: u64, index: u64, other: Option<u64>) -> bool
    ensures { result ≡ is_between from index other }
{
    match other {
        Some(other) => from < other && other <= index,
        None => false,
    }
}

impl Steps for SliceSteps {
    ghost use Rattle.std.specs.Prelude.{Some, refl};
    ghost use Rattle.plug_pass.specs.SliceRule.{slice_rule};
    ghost use Rattle.plug_pass.specs.SliceState.{Sliced, conf_of};

    ghost rule = { λ s. slice_rule (conf_of s) };

    ghost stands_for = { λ s history. Sliced s history };

    ghost preallocated = { λ s. Some s.buffer };

    // Inlined: otherwise the loop of `steps` has a call for each cell.
    #[inline(always)]
    fn step(&mut self, at: u64, packet: &mut Packet, _labels: &mut Labels) -> Outcome {
        let number = self.number(at, packet);
        if self.decides(number, self.drop) {
            self.met += 1;
            self.tick(at, packet);
            return Outcome::Drop;
        }
        if self.decides(number, self.null) {
            self.met += 1;
            self.tick(at, packet);
            *packet = Packet::null();
            return Outcome::Pass;
        }
        if self.decides(number, self.stop) {
            return Outcome::Stop;
        }
        self.met += 1;
        self.tick(at, packet);
        Outcome::Pass
    }

    fn pass_over(&mut self, _at: u64) {}

    fn has_fault(&self, _cut: u64) -> bool {
        false
    }

    ghost quiet = { λ plugin. record { no_lines = λ history packet labels. refl; no_summary = λ history. refl } };

    ghost never_agrees = { λ plugin history. refl };
}
