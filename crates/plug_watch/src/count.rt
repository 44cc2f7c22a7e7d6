//! The plugin `count`.
ghost use Rattle.std.specs.Prelude.{◌≡◌, ◌++◌, IfOk, OnOk, OnErr, IsOk, [], None, Some, false, map, nat_lt, if◌then◌else◌};
ghost use Rattle.std.specs.List.{take_while};
ghost use Rattle.plug_watch.specs.CountNotes.{IsTallied, line_of_note, pid_in, place_of};
ghost use Rattle.plug_watch.specs.CountRule.{count_rule};
ghost use Rattle.plugin_notes.specs.NotesKept.{CanFold, Folds};

use crate::count_conf::CountConf;
use crate::note::Note;
use crate::summary::push_summary;
use circular_buffer::HeapCircularBuffer;
use plugin_notes::{Tally, pop_below, push_lines_below, push_note};
use plugin_options::PidSet;
use plugin_trait::{Line, Outcome, Plugin};
use std::alloc::{AllocError, Global};
use ts_packet::{Labels, Packet};

/// Counts packets by PID, and with `all` reports a line for each.
#[derive(Drop)]
pub struct Count {
    pids: PidSet,
    negate: bool,
    all: bool,
    total: bool,
    /// The counts below the greatest mark.
    tally: Tally,
    /// The packets from the mark on, which are not counted yet.
    notes: HeapCircularBuffer<Note>,
}

impl Count {
    ghost use Rattle.std.specs.Prelude.{◌≡◌, IfOk, [], None, Some, if◌then◌else◌};
    ghost use Rattle.plug_watch.specs.CountSettings.{IsValidCount};
    ghost use Rattle.plug_watch.specs.CountRule.{count_rule};
    ghost use Rattle.plug_watch.specs.CountConfOf.{room_of};

    /// A new plugin, which has processed no cell. It allocates its tables, and room for notes on as many packets as
    /// the buffer holds.
    pub fn new(alloc: Global, conf: &CountConf, buffer: usize) -> Result<Count, AllocError>
        requires { IsValidCount conf.now }
        ensures rule { IfOk result (λ plugin. ⟦<Count as Plugin>⟧.rule plugin ≡ count_rule conf.now) }
        ensures fresh { IfOk result (λ plugin. ⟦<Count as Plugin>⟧.stands_for plugin [] 0) }
        ensures preallocated { IfOk result (λ plugin. ⟦<Count as Plugin>⟧.preallocated plugin ≡ (if conf.now.all then None else Some buffer)) }
        ensures reserved { IfOk result (λ plugin. room_of plugin ≡ buffer) }
    {
        Ok(Count {
            pids: PidSet::of(alloc, &conf.pid)?,
            negate: conf.negate,
            all: conf.all,
            total: conf.total,
            tally: Tally::new(alloc)?,
            notes: HeapCircularBuffer::with_capacity(alloc, buffer)?,
        })
    }
}

// Appends the lines of the notes below a position, if lines are asked for.
fn push_lines_if(
    wanted: bool,
    lines: &mut Vec<Line>,
    notes: &HeapCircularBuffer<Note>,
    mark: u64,
) -> Result<(), AllocError>
    ensures ok { OnOk result (lines.new.items ≡ lines.old.items
        ++ (if wanted then map line_of_note (take_while (λ note. nat_lt (place_of note) mark) notes.now.items) else [])) }
    ensures err { OnErr result (lines.new.items ≡ lines.old.items) }
    ensures room { wanted ≡ false → IsOk result }
{
    if !wanted {
        return Ok(());
    }
    push_lines_below(lines, notes, mark)
}

// Counts the notes below a position, and removes them.
fn fold_below(notes: &mut HeapCircularBuffer<Note>, tally: &mut Tally, mark: u64)
    requires { CanFold pid_in IsTallied notes.old.items tally.old }
    ensures folds { Folds place_of IsTallied mark notes.old.items notes.new.items tally.old tally.new }
    ensures capacity { notes.new.capacity ≡ notes.old.capacity }
{
    while let Some(note) = pop_below(notes, mark) {
        tally.add(note.pid);
    }
}

impl Plugin for Count {
    ghost use Rattle.std.specs.Prelude.{◌≡◌, ◌≢◌, ◌<◌, IsOk, IsSome, refl};
    ghost use Rattle.ts_packet.specs.Cells.{Live};
    ghost use Rattle.chain_model.specs.declared.positions.TheConstants.{POSITION_LIMIT};
    ghost use Rattle.plugin_trait.specs.Marks.{AllowsMark, GivesLines};
    ghost use Rattle.plugin_trait.specs.Steps.{HasRoom, Meets, MeetsCells, Tells, left_of};
    ghost use Rattle.plug_watch.specs.CountRule.{count_rule};
    ghost use Rattle.plug_watch.specs.CountConfOf.{IsFull, StandsFor, conf_of, preallocated_of, room_of};

    ghost rule = { λ s. count_rule (conf_of s) };

    ghost stands_for = { λ s history mark. StandsFor s history mark };

    ghost preallocated = { λ s. preallocated_of s };

    /// The clauses are those of `Plugin`, whose ghost members have no names here, and two more: a step runs out of
    /// memory only where there is no room for one more note, and the room for notes stays the same.
    #[inline]
    fn step(&mut self, at: u64, packet: &mut Packet, _labels: &mut Labels) -> Outcome
        requires met { MeetsCells (StandsFor self.old) at }
        requires in_range { at < POSITION_LIMIT }
        ensures tells { Tells (count_rule (conf_of self.old)) (StandsFor self.old) at (Live packet.old _labels.old) result
            (left_of result packet.new _labels.new) }
        ensures meets { Meets (StandsFor self.old) (StandsFor self.new) at (Live packet.old _labels.old) result }
        ensures same_rule { count_rule (conf_of self.new) ≡ count_rule (conf_of self.old) }
        ensures same_preallocated { preallocated_of self.new ≡ preallocated_of self.old }
        ensures room { HasRoom (preallocated_of self.old) (StandsFor self.old) at → result ≢ Outcome.NoMemory }
        ensures full { result ≡ Outcome.NoMemory → IsFull self.old }
        ensures reserved { room_of self.new ≡ room_of self.old }
    {
        let pid = packet.pid();
        if !self.pids.selects(self.negate, pid) {
            return Outcome::Pass;
        }
        match push_note(&mut self.notes, Note { at, pid }) {
            Ok(()) => Outcome::Pass,
            Err(_) => Outcome::NoMemory,
        }
    }

    fn pass_over(&mut self, _at: u64) {}

    /// The clauses are those of `Plugin`, and one more: the room for notes stays the same.
    fn note(&mut self, written: u64, lines: &mut Vec<Line>) -> Result<(), AllocError>
        requires { AllowsMark (StandsFor self.old) written }
        ensures gives { GivesLines (count_rule (conf_of self.old)) (StandsFor self.old) (StandsFor self.new) written
            lines.old.items lines.new.items result }
        ensures same_rule { count_rule (conf_of self.new) ≡ count_rule (conf_of self.old) }
        ensures same_preallocated { preallocated_of self.new ≡ preallocated_of self.old }
        ensures room { IsSome (preallocated_of self.old) → IsOk result }
        ensures reserved { room_of self.new ≡ room_of self.old }
    {
        push_lines_if(self.all, lines, &self.notes, written)?;
        fold_below(&mut self.notes, &mut self.tally, written);
        Ok(())
    }

    fn summary(&self, at: u64, lines: &mut Vec<Line>) -> Result<(), AllocError> {
        push_summary(lines, at, &self.tally, self.total)
    }

    fn agreed(&self) -> bool {
        false
    }

    fn has_fault(&self, _cut: u64) -> bool {
        false
    }

    ghost starts_open = { λ plugin history mark stands. refl };
}
