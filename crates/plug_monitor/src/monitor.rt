//! The plugin `monitor`.
ghost use Rattle.std.specs.Prelude.{◌≡◌, IfOk, [], None};
ghost use Rattle.plugin_notes.specs.NotesKept.{CanFold, Folds};
ghost use Rattle.plug_monitor.specs.Counting.{AreCounted, no_pid};
ghost use Rattle.plug_monitor.specs.ErrorNotes.{place_of};

use crate::counts::Counts;
use crate::error_note::ErrorNote;
use crate::monitor_conf::MonitorConf;
use crate::note_lines::push_lines_below;
use crate::summary::push_summary;
use crate::watch::Watch;
use crate::watch_laws::a_dropped_cell_leaves_the_watch;
use circular_buffer::HeapCircularBuffer;
use plug_psi::FailureLatch;
use plugin_notes::{pop_below, push_if_any};
use plugin_trait::{Line, Outcome, Plugin};
use std::alloc::{AllocError, Global};
use ts_packet::{Labels, Packet};

/// Reports the errors of a stream by the indicators of ETSI TR 101 290.
///
/// If a step runs out of memory, every later step does too; what was noted before is still reported.
#[derive(Drop)]
pub struct Monitor {
    conf: MonitorConf,
    watch: Watch,
    /// The errors below the greatest mark.
    counts: Counts,
    /// Those from the mark on.
    notes: HeapCircularBuffer<ErrorNote>,
    failed: FailureLatch,
}

impl Monitor {
    ghost use Rattle.std.specs.Prelude.{◌≡◌, ◌<◌, ◌∷◌, ◌++◌, IfOk, IsErr, OnOk, OnErr, [], None, ℕ, List, length, true, false};
    ghost use Rattle.ts_packet.specs.declared.cell.Cell.{Cell as GivenCell};
    ghost use Rattle.ts_packet.specs.Cells.{Live};
    ghost use Rattle.chain_model.specs.declared.positions.TheConstants.{POSITION_LIMIT};
    ghost use Rattle.plugin_trait.specs.Steps.{MeetsCells};
    ghost use Rattle.plug_monitor.specs.MonitorRule.{monitor_rule};
    ghost use Rattle.plug_monitor.specs.MonitorSettings.{IsValidMonitor};
    ghost use Rattle.plug_monitor.specs.MonitorState.{StandsFor, has_failed, room_of};

    /// A new plugin, which has processed no cell. It allocates what is kept of each PID, and room for notes on as many packets as
    /// the buffer holds; what it keeps of tables and services grows with those of the stream.
    pub fn new(alloc: Global, conf: &MonitorConf, buffer: usize) -> Result<Monitor, AllocError>
        requires { IsValidMonitor conf.now }
        ensures rule { IfOk result (λ plugin. ⟦<Monitor as Plugin>⟧.rule plugin ≡ monitor_rule conf.now) }
        ensures fresh { IfOk result (λ plugin. ⟦<Monitor as Plugin>⟧.stands_for plugin [] 0) }
        ensures preallocated { IfOk result (λ plugin. ⟦<Monitor as Plugin>⟧.preallocated plugin ≡ None) }
        ensures reserved { IfOk result (λ plugin. room_of plugin ≡ buffer) }
    {
        let notes = HeapCircularBuffer::with_capacity(alloc, buffer)?;
        // The largest value comes last: nothing can fail while it is held.
        let watch = Watch::new(alloc, conf)?;
        Ok(Monitor {
            conf: *conf,
            watch,
            counts: Counts::none(),
            notes,
            failed: FailureLatch::unset(),
        })
    }

    // Processes the packet at a position, unless memory ran out before.
    fn meet(&mut self, at: u64, packet: &Packet) -> Result<(), AllocError>
        requires met { MeetsCells (StandsFor self.old) at }
        requires in_range { at < POSITION_LIMIT }
        ensures met { OnOk result ((history : List GivenCell) (mark : ℕ) → StandsFor self.old history mark
            → length history ≡ at → (labels : ℕ) → StandsFor self.new (history ++ Live packet.now labels ∷ []) mark) }
        ensures same { self.new.conf ≡ self.old.conf }
        ensures reserved { room_of self.new ≡ room_of self.old }
        ensures err { OnErr result ((history : List GivenCell) (mark : ℕ) → StandsFor self.old history mark → StandsFor self.new history mark) }
    {
        self.failed.check()?;
        let answer = self.look(at, packet);
        self.failed.note(answer)?;
        Ok(())
    }

    // Processes it.
    fn look(&mut self, at: u64, packet: &Packet) -> Result<(), AllocError>
        requires met { MeetsCells (StandsFor self.old) at }
        requires in_range { at < POSITION_LIMIT }
        requires working { has_failed self.old ≡ false }
        ensures met { OnOk result ((history : List GivenCell) (mark : ℕ) → StandsFor self.old history mark
            → length history ≡ at → (labels : ℕ) → StandsFor self.new (history ++ Live packet.now labels ∷ []) mark) }
        ensures same { self.new.conf ≡ self.old.conf }
        ensures reserved { room_of self.new ≡ room_of self.old }
        ensures same_failed { has_failed self.new ≡ has_failed self.old }
        ensures err { OnErr result ((self.new.counts ≡ self.old.counts) × (self.new.notes.items ≡ self.old.notes.items)) }
    {
        let errors = self.watch.meet(at, packet)?;
        push_if_any(&mut self.notes, ErrorNote::of(at, errors))?;
        Ok(())
    }
}

// Counts the errors below a position, and removes them.
fn fold_below(notes: &mut HeapCircularBuffer<ErrorNote>, counts: &mut Counts, mark: u64)
    requires { CanFold no_pid AreCounted notes.old.items counts.old }
    ensures folds { Folds place_of AreCounted mark notes.old.items notes.new.items counts.old counts.new }
    ensures capacity { notes.new.capacity ≡ notes.old.capacity }
{
    while let Some(note) = pop_below(notes, mark) {
        counts.add_all(note.errors.as_slice());
    }
}

impl Plugin for Monitor {
    ghost use Rattle.std.specs.Prelude.{◌≡◌, ◌≢◌, ◌<◌, IsOk, IsSome, refl};
    ghost use Rattle.ts_packet.specs.Cells.{Live};
    ghost use Rattle.chain_model.specs.declared.positions.TheConstants.{POSITION_LIMIT};
    ghost use Rattle.plugin_trait.specs.Marks.{AllowsMark, GivesLines};
    ghost use Rattle.plugin_trait.specs.Steps.{HasRoom, Meets, MeetsCells, Tells, left_of};
    ghost use Rattle.plug_monitor.specs.MonitorRule.{monitor_rule};
    ghost use Rattle.plug_monitor.specs.MonitorState.{StandsFor, preallocated_of, room_of};

    ghost rule = { λ s. monitor_rule s.conf };

    ghost stands_for = { λ s history mark. StandsFor s history mark };

    ghost preallocated = { λ s. preallocated_of s };

    /// The clauses are those of `Plugin`, whose ghost members have no names here, and one more: the room for notes stays the
    /// same.
    fn step(&mut self, at: u64, packet: &mut Packet, _labels: &mut Labels) -> Outcome
        requires met { MeetsCells (StandsFor self.old) at }
        requires in_range { at < POSITION_LIMIT }
        ensures tells { Tells (monitor_rule self.old.conf) (StandsFor self.old) at (Live packet.old _labels.old) result
            (left_of result packet.new _labels.new) }
        ensures meets { Meets (StandsFor self.old) (StandsFor self.new) at (Live packet.old _labels.old) result }
        ensures same_rule { monitor_rule self.new.conf ≡ monitor_rule self.old.conf }
        ensures same_preallocated { preallocated_of self.new ≡ preallocated_of self.old }
        ensures room { HasRoom (preallocated_of self.old) (StandsFor self.old) at → result ≢ Outcome.NoMemory }
        ensures reserved { room_of self.new ≡ room_of self.old }
    {
        match self.meet(at, packet) {
            Ok(()) => Outcome::Pass,
            Err(_) => Outcome::NoMemory,
        }
    }

    fn pass_over(&mut self, _at: u64) {
        // A law, which runs nothing.
        a_dropped_cell_leaves_the_watch();
    }

    /// The clauses are those of `Plugin`, and one more: the room for notes stays the same.
    fn note(&mut self, written: u64, lines: &mut Vec<Line>) -> Result<(), AllocError>
        requires { AllowsMark (StandsFor self.old) written }
        ensures gives { GivesLines (monitor_rule self.old.conf) (StandsFor self.old) (StandsFor self.new) written
            lines.old.items lines.new.items result }
        ensures same_rule { monitor_rule self.new.conf ≡ monitor_rule self.old.conf }
        ensures same_preallocated { preallocated_of self.new ≡ preallocated_of self.old }
        ensures room { IsSome (preallocated_of self.old) → IsOk result }
        ensures reserved { room_of self.new ≡ room_of self.old }
    {
        push_lines_below(lines, &self.notes, written)?;
        fold_below(&mut self.notes, &mut self.counts, written);
        Ok(())
    }

    fn summary(&self, at: u64, lines: &mut Vec<Line>) -> Result<(), AllocError> {
        push_summary(lines, at, &self.conf, &self.counts)?;
        Ok(())
    }

    fn agreed(&self) -> bool {
        false
    }

    fn has_fault(&self, _cut: u64) -> bool {
        self.counts.all() > 0
    }

    ghost starts_open = { λ plugin history mark stands. refl };
}
