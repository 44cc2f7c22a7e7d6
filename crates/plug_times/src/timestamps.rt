//! The plugin `timestamps`.
ghost use Rattle.std.specs.Prelude.{◌≡◌, IfOk, [], None};
ghost use Rattle.plugin_notes.specs.NotesKept.{CanFold, Folds};
ghost use Rattle.plug_times.specs.ClockSteps.{IsStepped};
ghost use Rattle.plug_times.specs.StampTexts.{pid_in, place_of};

use crate::shown::Shown;
use crate::stamp::Stamp;
use crate::stamp_lines::push_lines_below;
use crate::step_row::StepRow;
use crate::summary::push_clock_lines;
use crate::timestamps_conf::TimestampsConf;
use circular_buffer::HeapCircularBuffer;
use plugin_notes::{pop_below, push_if_any};
use plugin_options::PidSet;
use plugin_trait::{Line, Outcome, Plugin};
use std::alloc::{AllocError, Global};
use ts_packet::{Labels, Packet};

/// Reports PCRs, PTSs and DTSs, and the steps between the PCRs of each PID.
#[derive(Drop)]
pub struct Timestamps {
    pids: PidSet,
    shown: Shown,
    /// The PCRs below the greatest mark.
    row: StepRow,
    /// What the packets from the mark on told.
    notes: HeapCircularBuffer<Stamp>,
}

impl Timestamps {
    ghost use Rattle.std.specs.Prelude.{◌≡◌, IfOk, [], None};
    ghost use Rattle.plug_times.specs.TimestampsSettings.{IsValidTimestamps};
    ghost use Rattle.plug_times.specs.TimestampsRule.{timestamps_rule};
    ghost use Rattle.plug_times.specs.TimestampsState.{room_of};

    /// A new plugin, which has processed no cell. It allocates its tables, and room for notes on as many packets as
    /// the buffer holds.
    pub fn new(
        alloc: Global,
        conf: &TimestampsConf,
        buffer: usize,
    ) -> Result<Timestamps, AllocError>
        requires { IsValidTimestamps conf.now }
        ensures rule { IfOk result (λ plugin. ⟦<Timestamps as Plugin>⟧.rule plugin ≡ timestamps_rule conf.now) }
        ensures fresh { IfOk result (λ plugin. ⟦<Timestamps as Plugin>⟧.stands_for plugin [] 0) }
        ensures preallocated { IfOk result (λ plugin. ⟦<Timestamps as Plugin>⟧.preallocated plugin ≡ None) }
        ensures reserved { IfOk result (λ plugin. room_of plugin ≡ buffer) }
    {
        Ok(Timestamps {
            pids: PidSet::of(alloc, &conf.pid)?,
            shown: conf.shown,
            row: StepRow::new(alloc)?,
            notes: HeapCircularBuffer::with_capacity(alloc, buffer)?,
        })
    }
}

// Counts what packets below a position told, and removes it.
fn fold_below(notes: &mut HeapCircularBuffer<Stamp>, row: &mut StepRow, mark: u64)
    requires { CanFold pid_in IsStepped notes.old.items row.old }
    ensures folds { Folds place_of IsStepped mark notes.old.items notes.new.items row.old row.new }
    ensures capacity { notes.new.capacity ≡ notes.old.capacity }
{
    while let Some(note) = pop_below(notes, mark) {
        row.add(&note);
    }
}

impl Plugin for Timestamps {
    ghost use Rattle.std.specs.Prelude.{◌≡◌, ◌≢◌, ◌<◌, IsOk, IsSome, refl};
    ghost use Rattle.ts_packet.specs.Cells.{Live};
    ghost use Rattle.chain_model.specs.declared.positions.TheConstants.{POSITION_LIMIT};
    ghost use Rattle.plugin_trait.specs.Marks.{AllowsMark, GivesLines};
    ghost use Rattle.plugin_trait.specs.Steps.{HasRoom, Meets, MeetsCells, Tells, left_of};
    ghost use Rattle.plug_times.specs.TimestampsRule.{timestamps_rule};
    ghost use Rattle.plug_times.specs.TimestampsState.{IsFull, StandsFor, conf_of, preallocated_of, room_of};

    ghost rule = { λ s. timestamps_rule (conf_of s) };

    ghost stands_for = { λ s history mark. StandsFor s history mark };

    ghost preallocated = { λ s. preallocated_of s };

    /// The clauses are those of `Plugin`, whose ghost members have no names here, and two more: a step runs out of
    /// memory only where there is no room for one more note, and the room for notes stays the same.
    #[inline]
    fn step(&mut self, at: u64, packet: &mut Packet, _labels: &mut Labels) -> Outcome
        requires met { MeetsCells (StandsFor self.old) at }
        requires in_range { at < POSITION_LIMIT }
        ensures tells { Tells (timestamps_rule (conf_of self.old)) (StandsFor self.old) at (Live packet.old _labels.old) result
            (left_of result packet.new _labels.new) }
        ensures meets { Meets (StandsFor self.old) (StandsFor self.new) at (Live packet.old _labels.old) result }
        ensures same_rule { timestamps_rule (conf_of self.new) ≡ timestamps_rule (conf_of self.old) }
        ensures same_preallocated { preallocated_of self.new ≡ preallocated_of self.old }
        ensures room { HasRoom (preallocated_of self.old) (StandsFor self.old) at → result ≢ Outcome.NoMemory }
        ensures full { result ≡ Outcome.NoMemory → IsFull self.old }
        ensures reserved { room_of self.new ≡ room_of self.old }
    {
        if !self.pids.selects(false, packet.pid()) {
            return Outcome::Pass;
        }
        match push_if_any(&mut self.notes, Stamp::of(at, packet)) {
            Ok(()) => Outcome::Pass,
            Err(_) => Outcome::NoMemory,
        }
    }

    fn pass_over(&mut self, _at: u64) {}

    /// The clauses are those of `Plugin`, and one more: the room for notes stays the same.
    fn note(&mut self, written: u64, lines: &mut Vec<Line>) -> Result<(), AllocError>
        requires { AllowsMark (StandsFor self.old) written }
        ensures gives { GivesLines (timestamps_rule (conf_of self.old)) (StandsFor self.old) (StandsFor self.new) written
            lines.old.items lines.new.items result }
        ensures same_rule { timestamps_rule (conf_of self.new) ≡ timestamps_rule (conf_of self.old) }
        ensures same_preallocated { preallocated_of self.new ≡ preallocated_of self.old }
        ensures room { IsSome (preallocated_of self.old) → IsOk result }
        ensures reserved { room_of self.new ≡ room_of self.old }
    {
        push_lines_below(lines, &self.notes, written, self.shown)?;
        fold_below(&mut self.notes, &mut self.row, written);
        Ok(())
    }

    fn summary(&self, at: u64, lines: &mut Vec<Line>) -> Result<(), AllocError> {
        if self.shown.csv {
            return Ok(());
        }
        push_clock_lines(lines, at, &self.row)
    }

    fn agreed(&self) -> bool {
        false
    }

    fn has_fault(&self, _cut: u64) -> bool {
        false
    }

    ghost starts_open = { λ plugin history mark stands. refl };
}
