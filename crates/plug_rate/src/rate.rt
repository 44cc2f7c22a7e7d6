//! The plugin `rate`.
ghost use Rattle.std.specs.Prelude.{◌≡◌, IfOk, [], None};
ghost use Rattle.plugin_notes.specs.NotesKept.{CanFold, Folds};
ghost use Rattle.plug_rate.specs.Measures.{place_of};
ghost use Rattle.plug_rate.specs.RateRule.{rate_rule};
ghost use Rattle.plug_rate.specs.RateState.{no_pid};
ghost use Rattle.plug_rate.specs.Summing.{IsSummed};

use crate::bounds::Bounds;
use crate::judged::Judged;
use crate::measure::Measure;
use crate::meter::Meter;
use crate::rate_conf::RateConf;
use crate::rate_lines::{push_lines_below, push_summary};
use crate::sums::Sums;
use circular_buffer::HeapCircularBuffer;
use plugin_notes::{pop_below, push_if_any};
use plugin_options::PidSet;
use plugin_trait::{Line, Outcome, Plugin};
use std::alloc::{AllocError, Global};
use ts_packet::{Labels, Packet};

/// Reports the bit rate from interval to interval of the stream's own clock.
#[derive(Drop)]
pub struct Rate {
    interval: u64,
    pids: PidSet,
    bounds: Bounds,
    pcr_pid: Option<u64>,
    /// The measurement in hand.
    meter: Meter,
    /// The measurements below the greatest mark.
    sums: Sums,
    /// Those from the mark on.
    notes: HeapCircularBuffer<Judged>,
}

impl Rate {
    ghost use Rattle.std.specs.Prelude.{◌≡◌, ◌<◌, IfOk, IsErr, OnOk, OnErr, [], ◌++◌, ◌∷◌, None, false, length, ℕ, List, option_map};
    ghost use Rattle.ts_packet.specs.declared.cell.Cell.{Cell as GivenCell};
    ghost use Rattle.ts_packet.specs.Cells.{Live};
    ghost use Rattle.ts_packet.specs.Header.{pid_of};
    ghost use Rattle.plugin_options.specs.Selection.{is_selected};
    ghost use Rattle.chain_model.specs.declared.positions.TheConstants.{POSITION_LIMIT};
    ghost use Rattle.plugin_trait.specs.Steps.{MeetsCells};
    ghost use Rattle.plug_rate.specs.Bounds.{is_outside};
    ghost use Rattle.plug_rate.specs.Measures.{judged_by};
    ghost use Rattle.plug_rate.specs.MeterSteps.{outside_with};
    ghost use Rattle.plug_rate.specs.RateSettings.{IsValidRate};
    ghost use Rattle.plug_rate.specs.RateRule.{rate_rule};
    ghost use Rattle.plug_rate.specs.RateState.{IsFull, StandsFor, conf_of, room_of};

    /// A new plugin, which has processed no cell. It allocates its table of PIDs, and room for notes on as many packets as
    /// the buffer holds.
    pub fn new(alloc: Global, conf: &RateConf, buffer: usize) -> Result<Rate, AllocError>
        requires { IsValidRate conf.now }
        ensures rule { IfOk result (λ plugin. ⟦<Rate as Plugin>⟧.rule plugin ≡ rate_rule conf.now) }
        ensures fresh { IfOk result (λ plugin. ⟦<Rate as Plugin>⟧.stands_for plugin [] 0) }
        ensures preallocated { IfOk result (λ plugin. ⟦<Rate as Plugin>⟧.preallocated plugin ≡ None) }
        ensures reserved { IfOk result (λ plugin. room_of plugin ≡ buffer) }
    {
        Ok(Rate {
            interval: conf.interval,
            pids: PidSet::of(alloc, &conf.pid)?,
            bounds: conf.bounds,
            pcr_pid: conf.pcr_pid,
            meter: Meter::new(conf.pcr_pid),
            sums: Sums::none(),
            notes: HeapCircularBuffer::with_capacity(alloc, buffer)?,
        })
    }

    // Looks at the packet at a position.
    #[inline(always)]
    fn look(&mut self, at: u64, packet: &Packet) -> Result<(), AllocError>
        requires met { MeetsCells (StandsFor self.old) at }
        requires in_range { at < POSITION_LIMIT }
        ensures met { OnOk result ((history : List GivenCell) (mark : ℕ) → StandsFor self.old history mark
            → length history ≡ at → (labels : ℕ) → StandsFor self.new (history ++ Live packet.now labels ∷ []) mark) }
        ensures same { conf_of self.new ≡ conf_of self.old }
        ensures full { IsErr result → IsFull self.old }
        ensures reserved { room_of self.new ≡ room_of self.old }
        ensures err { OnErr result ((self.new.meter ≡ self.old.meter) × (self.new.sums ≡ self.old.sums)
            × (self.new.notes.items ≡ self.old.notes.items)) }
    {
        let counts = self.pids.selects(false, packet.pid());
        match packet.pcr() {
            Some(_) => self.meet(at, packet, counts),
            None => {
                self.meter.add(counts);
                Ok(())
            }
        }
    }

    // Processes the packet at a position, whose PCR may be read by the clock, and which counts or not.
    fn meet(&mut self, at: u64, packet: &Packet, counts: bool) -> Result<(), AllocError>
        requires met { MeetsCells (StandsFor self.old) at }
        requires in_range { at < POSITION_LIMIT }
        requires selected { is_selected self.old.pids false (pid_of packet.now) ≡ counts }
        ensures met { OnOk result ((history : List GivenCell) (mark : ℕ) → StandsFor self.old history mark
            → length history ≡ at → (labels : ℕ) → StandsFor self.new (history ++ Live packet.now labels ∷ []) mark) }
        ensures same { conf_of self.new ≡ conf_of self.old }
        ensures full { IsErr result → IsFull self.old }
        ensures reserved { room_of self.new ≡ room_of self.old }
        ensures err { OnErr result ((self.new.meter ≡ self.old.meter) × (self.new.sums ≡ self.old.sums)
            × (self.new.notes.items ≡ self.old.notes.items)) }
    {
        let clock = self.meter.clock.after(at, packet);
        let measure = self.meter.measure(self.interval, at, &clock);
        let judged = self.judged(measure);
        push_if_any(&mut self.notes, judged)?;
        let is_outside = self.outside_with(measure);
        let meter = self
            .meter
            .with(self.interval, at, clock, counts, is_outside);
        self.meter = meter;
        Ok(())
    }

    // What was measured, with its verdict.
    fn judged(&self, measure: Option<Measure>) -> Option<Judged>
        ensures { result ≡ option_map (judged_by self.now.bounds self.now.meter.is_outside) measure }
    {
        let measure = measure?;
        Some(Judged {
            measure,
            verdict: self.bounds.verdict(self.meter.is_outside, measure.bitrate),
        })
    }

    // Whether the last measurement is outside of the bounds, with one more where there is one.
    fn outside_with(&self, measure: Option<Measure>) -> bool
        ensures { result ≡ outside_with self.now.bounds self.now.meter.is_outside measure }
    {
        match measure {
            Some(measure) => self.bounds.is_outside(measure.bitrate),
            None => self.meter.is_outside,
        }
    }
}

// Counts the measurements below a position, and removes them.
fn fold_below(notes: &mut HeapCircularBuffer<Judged>, sums: &mut Sums, mark: u64)
    requires { CanFold no_pid IsSummed notes.old.items sums.old }
    ensures folds { Folds place_of IsSummed mark notes.old.items notes.new.items sums.old sums.new }
    ensures capacity { notes.new.capacity ≡ notes.old.capacity }
{
    while let Some(note) = pop_below(notes, mark) {
        sums.add(&note);
    }
}

impl Plugin for Rate {
    ghost use Rattle.std.specs.Prelude.{◌≡◌, ◌≢◌, ◌<◌, IsOk, IsSome, refl};
    ghost use Rattle.ts_packet.specs.Cells.{Live};
    ghost use Rattle.chain_model.specs.declared.positions.TheConstants.{POSITION_LIMIT};
    ghost use Rattle.plugin_trait.specs.Marks.{AllowsMark, GivesLines};
    ghost use Rattle.plugin_trait.specs.Steps.{HasRoom, Meets, MeetsCells, Tells, left_of};
    ghost use Rattle.plug_rate.specs.RateRule.{rate_rule};
    ghost use Rattle.plug_rate.specs.RateState.{IsFull, StandsFor, conf_of, preallocated_of, room_of};

    ghost rule = { λ s. rate_rule (conf_of s) };

    ghost stands_for = { λ s history mark. StandsFor s history mark };

    ghost preallocated = { λ s. preallocated_of s };

    /// The clauses are those of `Plugin`, whose ghost members have no names here, and two more: a step runs out of
    /// memory only where there is no room for one more note, and the room for notes stays the same.
    // Inlined always: otherwise the loop of `steps` has a call for each cell.
    #[inline(always)]
    fn step(&mut self, at: u64, packet: &mut Packet, _labels: &mut Labels) -> Outcome
        requires met { MeetsCells (StandsFor self.old) at }
        requires in_range { at < POSITION_LIMIT }
        ensures tells { Tells (rate_rule (conf_of self.old)) (StandsFor self.old) at (Live packet.old _labels.old) result
            (left_of result packet.new _labels.new) }
        ensures meets { Meets (StandsFor self.old) (StandsFor self.new) at (Live packet.old _labels.old) result }
        ensures same_rule { rate_rule (conf_of self.new) ≡ rate_rule (conf_of self.old) }
        ensures same_preallocated { preallocated_of self.new ≡ preallocated_of self.old }
        ensures room { HasRoom (preallocated_of self.old) (StandsFor self.old) at → result ≢ Outcome.NoMemory }
        ensures full { result ≡ Outcome.NoMemory → IsFull self.old }
        ensures reserved { room_of self.new ≡ room_of self.old }
    {
        match self.look(at, packet) {
            Ok(()) => Outcome::Pass,
            Err(_) => Outcome::NoMemory,
        }
    }

    fn pass_over(&mut self, _at: u64) {}

    /// The clauses are those of `Plugin`, and one more: the room for notes stays the same.
    fn note(&mut self, written: u64, lines: &mut Vec<Line>) -> Result<(), AllocError>
        requires { AllowsMark (StandsFor self.old) written }
        ensures gives { GivesLines (rate_rule (conf_of self.old)) (StandsFor self.old) (StandsFor self.new) written
            lines.old.items lines.new.items result }
        ensures same_rule { rate_rule (conf_of self.new) ≡ rate_rule (conf_of self.old) }
        ensures same_preallocated { preallocated_of self.new ≡ preallocated_of self.old }
        ensures room { IsSome (preallocated_of self.old) → IsOk result }
        ensures reserved { room_of self.new ≡ room_of self.old }
    {
        push_lines_below(lines, &self.notes, written)?;
        fold_below(&mut self.notes, &mut self.sums, written);
        Ok(())
    }

    fn summary(&self, at: u64, lines: &mut Vec<Line>) -> Result<(), AllocError> {
        push_summary(lines, at, &self.sums)
    }

    fn agreed(&self) -> bool {
        false
    }

    fn has_fault(&self, _cut: u64) -> bool {
        self.sums.has_fault
    }

    ghost starts_open = { λ plugin history mark stands. refl };
}
