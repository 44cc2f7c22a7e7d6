//! The plugin `pcrverify`.
ghost use Rattle.std.specs.Prelude.{◌≡◌, IfOk, [], None};
ghost use Rattle.plug_pcr.specs.PcrverifyRule.{pcrverify_rule};

use crate::clock_note::ClockNote;
use crate::last_clock::fault_behind;
use crate::last_clocks::LastClocks;
use crate::noted_clocks::NotedClocks;
use crate::pcrverify_conf::PcrverifyConf;
use plug_clock::LastClock;
use plugin_notes::push_line;
use plugin_options::PidSet;
use plugin_trait::{Line, LineText, Outcome, Plugin};
use std::alloc::{AllocError, Global};
use ts_packet::{Labels, Packet};

/// Reports packets whose PCR is too far from the one expected at a constant bit rate.
#[derive(Drop)]
pub struct Pcrverify {
    bitrate: u64,
    jitter_max: u64,
    pids: PidSet,
    last: LastClocks,
    /// The packets with a PCR from the greatest mark on, and the faults among them.
    noted: NotedClocks,
    /// How many packets with a PCR are below the mark.
    clock_count: u64,
    /// How many of them are faults.
    fault_count: u64,
}

impl Pcrverify {
    ghost use Rattle.std.specs.Prelude.{◌≡◌, ◌<◌, IfOk, IsErr, OnOk, OnErr, [], ◌++◌, ◌∷◌, None, Some, true, false, length, ℕ, List};
    ghost use Rattle.ts_packet.specs.declared.cell.Cell.{Cell as GivenCell};
    ghost use Rattle.ts_packet.specs.Cells.{Live};
    ghost use Rattle.ts_packet.specs.Header.{pid_of};
    ghost use Rattle.ts_packet.specs.Pcr.{pcr_of};
    ghost use Rattle.plugin_options.specs.Selection.{is_selected};
    ghost use Rattle.chain_model.specs.declared.positions.TheConstants.{POSITION_LIMIT};
    ghost use Rattle.plugin_trait.specs.Steps.{MeetsCells};
    ghost use Rattle.plug_pcr.specs.PcrverifySettings.{IsValidPcrverify};
    ghost use Rattle.plug_pcr.specs.PcrverifyRule.{pcrverify_rule};
    ghost use Rattle.plug_pcr.specs.PcrverifyConfOf.{IsFull, StandsFor, conf_of, room_for_clocks, room_for_faults};

    /// A new plugin, which has processed no cell. It allocates its tables, and room for notes on as many packets as
    /// the buffer holds.
    pub fn new(alloc: Global, conf: &PcrverifyConf, buffer: usize) -> Result<Pcrverify, AllocError>
        requires { IsValidPcrverify conf.now }
        ensures rule { IfOk result (λ plugin. ⟦<Pcrverify as Plugin>⟧.rule plugin ≡ pcrverify_rule conf.now) }
        ensures fresh { IfOk result (λ plugin. ⟦<Pcrverify as Plugin>⟧.stands_for plugin [] 0) }
        ensures preallocated { IfOk result (λ plugin. ⟦<Pcrverify as Plugin>⟧.preallocated plugin ≡ None) }
        ensures reserved_clocks { IfOk result (λ plugin. room_for_clocks plugin ≡ buffer) }
        ensures reserved_faults { IfOk result (λ plugin. room_for_faults plugin ≡ buffer) }
    {
        Ok(Pcrverify {
            bitrate: conf.bitrate,
            jitter_max: conf.jitter_max,
            pids: PidSet::of(alloc, &conf.pid)?,
            last: LastClocks::new(alloc)?,
            noted: NotedClocks::new(alloc, buffer)?,
            clock_count: 0,
            fault_count: 0,
        })
    }

    // Checks the packet at a position.
    #[inline(always)]
    fn look(&mut self, at: u64, packet: &Packet) -> Result<(), AllocError>
        requires met { MeetsCells (StandsFor self.old) at }
        requires in_range { at < POSITION_LIMIT }
        ensures met { OnOk result ((history : List GivenCell) (mark : ℕ) → StandsFor self.old history mark
            → length history ≡ at → (labels : ℕ) → StandsFor self.new (history ++ Live packet.now labels ∷ []) mark) }
        ensures same { conf_of self.new ≡ conf_of self.old }
        ensures full { IsErr result → IsFull self.old }
        ensures reserved_clocks { room_for_clocks self.new ≡ room_for_clocks self.old }
        ensures reserved_faults { room_for_faults self.new ≡ room_for_faults self.old }
        ensures err { OnErr result ((self.new.last ≡ self.old.last) × (self.new.noted.met.items ≡ self.old.noted.met.items)
            × (self.new.noted.faults.items ≡ self.old.noted.faults.items)
            × (self.new.clock_count ≡ self.old.clock_count) × (self.new.fault_count ≡ self.old.fault_count)) }
    {
        if !self.pids.selects(false, packet.pid()) {
            return Ok(());
        }
        match packet.pcr() {
            Some(clock) => self.meet(at, packet, clock),
            None => Ok(()),
        }
    }

    // Processes the packet at a position, which has this PCR and is on a checked PID.
    fn meet(&mut self, at: u64, packet: &Packet, clock: u64) -> Result<(), AllocError>
        requires met { MeetsCells (StandsFor self.old) at }
        requires in_range { at < POSITION_LIMIT }
        requires clocked { pcr_of packet.now ≡ Some clock }
        requires selected { is_selected self.old.pids false (pid_of packet.now) ≡ true }
        ensures met { OnOk result ((history : List GivenCell) (mark : ℕ) → StandsFor self.old history mark
            → length history ≡ at → (labels : ℕ) → StandsFor self.new (history ++ Live packet.now labels ∷ []) mark) }
        ensures same { conf_of self.new ≡ conf_of self.old }
        ensures full { IsErr result → IsFull self.old }
        ensures reserved_clocks { room_for_clocks self.new ≡ room_for_clocks self.old }
        ensures reserved_faults { room_for_faults self.new ≡ room_for_faults self.old }
        ensures err { OnErr result ((self.new.last ≡ self.old.last) × (self.new.noted.met.items ≡ self.old.noted.met.items)
            × (self.new.noted.faults.items ≡ self.old.noted.faults.items)
            × (self.new.clock_count ≡ self.old.clock_count) × (self.new.fault_count ≡ self.old.fault_count)) }
    {
        let pid = packet.pid();
        let last = self.last.on(pid);
        let fault = fault_behind(self.bitrate, self.jitter_max, at, last, packet, clock);
        self.noted.push(ClockNote { at }, fault)?;
        self.last.keep(pid, LastClock { at, clock });
        Ok(())
    }
}

impl Plugin for Pcrverify {
    ghost use Rattle.std.specs.Prelude.{◌≡◌, ◌≢◌, ◌<◌, IsOk, IsSome, refl};
    ghost use Rattle.ts_packet.specs.Cells.{Live};
    ghost use Rattle.chain_model.specs.declared.positions.TheConstants.{POSITION_LIMIT};
    ghost use Rattle.plugin_trait.specs.Marks.{AllowsMark, GivesLines};
    ghost use Rattle.plugin_trait.specs.Steps.{HasRoom, Meets, MeetsCells, Tells, left_of};
    ghost use Rattle.plug_pcr.specs.PcrverifyRule.{pcrverify_rule};
    ghost use Rattle.plug_pcr.specs.PcrverifyConfOf.{IsFull, StandsFor, conf_of, preallocated_of, room_for_clocks, room_for_faults};

    ghost rule = { λ s. pcrverify_rule (conf_of s) };

    ghost stands_for = { λ s history mark. StandsFor s history mark };

    ghost preallocated = { λ s. preallocated_of s };

    /// The clauses are those of `Plugin`, whose ghost members have no names here, and three more: a step runs out of
    /// memory only where there is no room for one more note, and the room for notes of both kinds stays the same.
    // Inlined always: otherwise the loop of `steps` has a call for each cell.
    #[inline(always)]
    fn step(&mut self, at: u64, packet: &mut Packet, _labels: &mut Labels) -> Outcome
        requires met { MeetsCells (StandsFor self.old) at }
        requires in_range { at < POSITION_LIMIT }
        ensures tells { Tells (pcrverify_rule (conf_of self.old)) (StandsFor self.old) at (Live packet.old _labels.old) result
            (left_of result packet.new _labels.new) }
        ensures meets { Meets (StandsFor self.old) (StandsFor self.new) at (Live packet.old _labels.old) result }
        ensures same_rule { pcrverify_rule (conf_of self.new) ≡ pcrverify_rule (conf_of self.old) }
        ensures same_preallocated { preallocated_of self.new ≡ preallocated_of self.old }
        ensures room { HasRoom (preallocated_of self.old) (StandsFor self.old) at → result ≢ Outcome.NoMemory }
        ensures full { result ≡ Outcome.NoMemory → IsFull self.old }
        ensures reserved_clocks { room_for_clocks self.new ≡ room_for_clocks self.old }
        ensures reserved_faults { room_for_faults self.new ≡ room_for_faults self.old }
    {
        match self.look(at, packet) {
            Ok(()) => Outcome::Pass,
            Err(_) => Outcome::NoMemory,
        }
    }

    fn pass_over(&mut self, _at: u64) {}

    /// The clauses are those of `Plugin`, and two more: the room for notes of both kinds stays the same.
    fn note(&mut self, written: u64, lines: &mut Vec<Line>) -> Result<(), AllocError>
        requires { AllowsMark (StandsFor self.old) written }
        ensures gives { GivesLines (pcrverify_rule (conf_of self.old)) (StandsFor self.old) (StandsFor self.new) written
            lines.old.items lines.new.items result }
        ensures same_rule { pcrverify_rule (conf_of self.new) ≡ pcrverify_rule (conf_of self.old) }
        ensures same_preallocated { preallocated_of self.new ≡ preallocated_of self.old }
        ensures room { IsSome (preallocated_of self.old) → IsOk result }
        ensures reserved_clocks { room_for_clocks self.new ≡ room_for_clocks self.old }
        ensures reserved_faults { room_for_faults self.new ≡ room_for_faults self.old }
    {
        self.noted.push_lines_below(lines, written)?;
        let (clocks, faults) = self.noted.drop_below(written);
        self.clock_count += clocks;
        self.fault_count += faults;
        Ok(())
    }

    fn summary(&self, at: u64, lines: &mut Vec<Line>) -> Result<(), AllocError> {
        let text = format!(in *lines.allocator();
            "pcr {} faults {}",
            self.clock_count, self.fault_count
        )?;
        push_line(lines, at, LineText::of(text))
    }

    fn agreed(&self) -> bool {
        false
    }

    fn has_fault(&self, _cut: u64) -> bool {
        self.fault_count > 0
    }

    ghost starts_open = { λ plugin history mark stands. refl };
}
