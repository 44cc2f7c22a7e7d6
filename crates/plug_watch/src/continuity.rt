//! The plugin `continuity`.
ghost use Rattle.std.specs.Prelude.{◌≡◌, IfOk, [], None};
ghost use Rattle.plug_watch.specs.ContinuityRule.{continuity_rule};

use circular_buffer::HeapCircularBuffer;
use plugin_notes::{
    ContinuityConf, ContinuityError, LastPackets, drop_below, push_if_any, push_line,
    push_lines_below,
};
use plugin_options::PidSet;
use plugin_trait::{Line, LineText, Outcome, Plugin};
use std::alloc::{AllocError, Global};
use ts_packet::{Labels, NULL_PID, PID_COUNT, Packet};

/// Reports packets whose continuity counter is not the expected one, and with `fix` corrects the counters.
#[derive(Drop)]
pub struct Continuity {
    pids: PidSet,
    fix: bool,
    last: LastPackets,
    /// The errors from the greatest mark on.
    notes: HeapCircularBuffer<ContinuityError>,
    /// How many errors are below the mark.
    fault_count: u64,
}

impl Continuity {
    ghost use Rattle.std.specs.Prelude.{◌≡◌, ◌<◌, true, IfOk, IsErr, OnOk, OnErr, [], ◌++◌, ◌∷◌, None, length, ℕ, List, if◌then◌else◌};
    ghost use Rattle.ts_packet.specs.declared.cell.Cell.{Cell as GivenCell};
    ghost use Rattle.ts_packet.specs.Cells.{Live};
    ghost use Rattle.ts_packet.specs.Header.{pid_of};
    ghost use Rattle.chain_model.specs.declared.positions.TheConstants.{POSITION_LIMIT};
    ghost use Rattle.plugin_trait.specs.Steps.{MeetsCells};
    ghost use Rattle.plug_watch.specs.ContinuitySettings.{IsValidContinuity};
    ghost use Rattle.plug_watch.specs.ContinuityRule.{continuity_rule, fixed};
    ghost use Rattle.plugin_notes.specs.Counters.{is_watched};
    ghost use Rattle.plug_watch.specs.ContinuityConfOf.{IsFull, StandsFor, conf_of, room_of};

    /// A new plugin, which has processed no cell. It allocates its tables, and room for notes on as many packets as
    /// the buffer holds.
    pub fn new(
        alloc: Global,
        conf: &ContinuityConf,
        buffer: usize,
    ) -> Result<Continuity, AllocError>
        requires { IsValidContinuity conf.now }
        ensures rule { IfOk result (λ plugin. ⟦<Continuity as Plugin>⟧.rule plugin ≡ continuity_rule conf.now) }
        ensures fresh { IfOk result (λ plugin. ⟦<Continuity as Plugin>⟧.stands_for plugin [] 0) }
        ensures preallocated { IfOk result (λ plugin. ⟦<Continuity as Plugin>⟧.preallocated plugin ≡ None) }
        ensures reserved { IfOk result (λ plugin. room_of plugin ≡ buffer) }
    {
        Ok(Continuity {
            pids: PidSet::of(alloc, &conf.pid)?,
            fix: conf.fix,
            last: LastPackets::new(alloc)?,
            notes: HeapCircularBuffer::with_capacity(alloc, buffer)?,
            fault_count: 0,
        })
    }

    // Whether the packets of a PID are checked.
    fn watches(&self, pid: u16) -> bool
        requires { pid < PID_COUNT }
        ensures { result ≡ is_watched (conf_of self.now) pid }
    {
        self.pids.selects(false, pid) && pid != NULL_PID
    }

    // Checks a packet, and with `fix` corrects its counter.
    fn watch(&mut self, at: u64, packet: &mut Packet) -> Result<(), AllocError>
        requires watched { is_watched (conf_of self.old) (pid_of packet.old) ≡ true }
        requires met { MeetsCells (StandsFor self.old) at }
        requires in_range { at < POSITION_LIMIT }
        ensures edited { OnOk result ((history : List GivenCell) (mark : ℕ) → StandsFor self.old history mark
            → packet.new ≡ (if self.old.fix then fixed history packet.old else packet.old)) }
        ensures met { OnOk result ((history : List GivenCell) (mark : ℕ) → StandsFor self.old history mark
            → length history ≡ at → (labels : ℕ) → StandsFor self.new (history ++ Live packet.old labels ∷ []) mark) }
        ensures same { conf_of self.new ≡ conf_of self.old }
        ensures full { IsErr result → IsFull self.old }
        ensures reserved { room_of self.new ≡ room_of self.old }
        ensures err { OnErr result ((self.new.last ≡ self.old.last) × (self.new.notes.items ≡ self.old.notes.items)
            × (self.new.fault_count ≡ self.old.fault_count) × (packet.new ≡ packet.old)) }
    {
        push_if_any(&mut self.notes, self.last.fault(at, packet))?;
        let right = self.last.keep(packet);
        if self.fix {
            packet.set_counter(right);
        }
        Ok(())
    }
}

impl Plugin for Continuity {
    ghost use Rattle.std.specs.Prelude.{◌≡◌, ◌≢◌, ◌<◌, IsOk, IsSome, refl};
    ghost use Rattle.ts_packet.specs.Cells.{Live};
    ghost use Rattle.chain_model.specs.declared.positions.TheConstants.{POSITION_LIMIT};
    ghost use Rattle.plugin_trait.specs.Marks.{AllowsMark, GivesLines};
    ghost use Rattle.plugin_trait.specs.Steps.{HasRoom, Meets, MeetsCells, Tells, left_of};
    ghost use Rattle.plug_watch.specs.ContinuityRule.{continuity_rule};
    ghost use Rattle.plug_watch.specs.ContinuityConfOf.{IsFull, StandsFor, conf_of, room_of, preallocated_of};

    ghost rule = { λ s. continuity_rule (conf_of s) };

    ghost stands_for = { λ s history mark. StandsFor s history mark };

    ghost preallocated = { λ s. preallocated_of s };

    /// The clauses are those of `Plugin`, whose ghost members have no names here, and two more: a step runs out of
    /// memory only where there is no room for one more note, and the room for notes stays the same.
    // Inlined always: otherwise the loop of `steps` has a call for each cell.
    #[inline(always)]
    fn step(&mut self, at: u64, packet: &mut Packet, labels: &mut Labels) -> Outcome
        requires met { MeetsCells (StandsFor self.old) at }
        requires in_range { at < POSITION_LIMIT }
        ensures tells { Tells (continuity_rule (conf_of self.old)) (StandsFor self.old) at (Live packet.old labels.old) result
            (left_of result packet.new labels.new) }
        ensures meets { Meets (StandsFor self.old) (StandsFor self.new) at (Live packet.old labels.old) result }
        ensures same_rule { continuity_rule (conf_of self.new) ≡ continuity_rule (conf_of self.old) }
        ensures same_preallocated { preallocated_of self.new ≡ preallocated_of self.old }
        ensures room { HasRoom (preallocated_of self.old) (StandsFor self.old) at → result ≢ Outcome.NoMemory }
        ensures full { result ≡ Outcome.NoMemory → IsFull self.old }
        ensures reserved { room_of self.new ≡ room_of self.old }
    {
        if !self.watches(packet.pid()) {
            return Outcome::Pass;
        }
        match self.watch(at, packet) {
            Ok(()) => Outcome::Pass,
            Err(_) => Outcome::NoMemory,
        }
    }

    fn pass_over(&mut self, _at: u64) {}

    /// The clauses are those of `Plugin`, and one more: the room for notes stays the same.
    fn note(&mut self, written: u64, lines: &mut Vec<Line>) -> Result<(), AllocError>
        requires { AllowsMark (StandsFor self.old) written }
        ensures gives { GivesLines (continuity_rule (conf_of self.old)) (StandsFor self.old) (StandsFor self.new) written
            lines.old.items lines.new.items result }
        ensures same_rule { continuity_rule (conf_of self.new) ≡ continuity_rule (conf_of self.old) }
        ensures same_preallocated { preallocated_of self.new ≡ preallocated_of self.old }
        ensures room { IsSome (preallocated_of self.old) → IsOk result }
        ensures reserved { room_of self.new ≡ room_of self.old }
    {
        push_lines_below(lines, &self.notes, written)?;
        self.fault_count += drop_below(&mut self.notes, written);
        Ok(())
    }

    fn summary(&self, at: u64, lines: &mut Vec<Line>) -> Result<(), AllocError> {
        let text = format!(in *lines.allocator(); "faults {}", self.fault_count)?;
        push_line(lines, at, LineText::of(text))
    }

    fn agreed(&self) -> bool {
        false
    }

    fn has_fault(&self, _cut: u64) -> bool {
        self.fault_count > 0
    }

    ghost starts_open = { λ plugin history mark stands. refl };
}
