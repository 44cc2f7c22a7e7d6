//! The plugin `analyze`.

ghost use Rattle.std.specs.Prelude.{◌≡◌, IfOk, [], None};
ghost use Rattle.plug_analyze.specs.AnalyzeRule.{analyze_rule};

use crate::analyze_conf::AnalyzeConf;
use crate::counters::meet_counter;
use crate::note::Note;
use crate::noted::Noted;
use crate::services::Services;
use crate::summary::push_summary;
use plug_psi::FailureLatch;
use plugin_notes::LastPackets;
use plugin_trait::{Line, Outcome, Plugin};
use std::alloc::{AllocError, Global};
use ts_packet::{Labels, Packet};

/// Reports what the packets were, by PID, and which services were in force.
///
/// If a step runs out of memory, every later step does too, and nothing is reported.
#[derive(Drop)]
pub struct Analyze {
    last: LastPackets,
    noted: Noted,
    services: Services,
    failed: FailureLatch,
}

impl Analyze {
    ghost use Rattle.std.specs.Prelude.{◌≡◌, ◌<◌, ◌∷◌, ◌++◌, IfOk, OnOk, OnErr, IsErr, IsOk, [], None, ℕ, List, length, true, false};
    ghost use Rattle.ts_packet.specs.declared.cell.Cell.{Cell as GivenCell};
    ghost use Rattle.ts_packet.specs.Cells.{Live};
    ghost use Rattle.ts_packet.specs.Header.{pid_of};
    ghost use Rattle.chain_model.specs.declared.positions.TheConstants.{POSITION_LIMIT};
    ghost use Rattle.plug_analyze.specs.AnalyzeRule.{analyze_rule};
    ghost use Rattle.plug_analyze.specs.AnalyzeSettings.{IsValidAnalyze};
    ghost use Rattle.plug_analyze.specs.AnalyzeStands.{HasNoteRoom, StandsFor, StandsForSome, has_failed, may_come, room_for_changes, room_for_notes};

    /// A new plugin, which has processed no cell. It allocates its tables, and room for notes on as many packets as
    /// the buffer holds; the tables in force grow with the stream.
    pub fn new(alloc: Global, _conf: &AnalyzeConf, buffer: usize) -> Result<Analyze, AllocError>
        requires { IsValidAnalyze _conf.now }
        ensures rule { IfOk result (λ plugin. ⟦<Analyze as Plugin>⟧.rule plugin ≡ analyze_rule) }
        ensures fresh { IfOk result (λ plugin. ⟦<Analyze as Plugin>⟧.stands_for plugin [] 0) }
        ensures preallocated { IfOk result (λ plugin. ⟦<Analyze as Plugin>⟧.preallocated plugin ≡ None) }
        ensures whole { IfOk result (λ plugin. has_failed plugin ≡ false) }
        ensures reserved_notes { IfOk result (λ plugin. room_for_notes plugin ≡ buffer) }
        ensures reserved_changes { IfOk result (λ plugin. room_for_changes plugin ≡ buffer) }
    {
        Ok(Analyze {
            last: LastPackets::new(alloc)?,
            noted: Noted::new(alloc, buffer)?,
            services: Services::new(alloc, buffer)?,
            failed: FailureLatch::unset(),
        })
    }

    // Processes the packet at a position, unless memory ran out before.
    #[inline]
    fn meet(&mut self, at: u64, packet: &Packet) -> Result<(), AllocError>
        requires met { has_failed self.old ≡ false → StandsForSome self.old at }
        requires in_range { at < POSITION_LIMIT }
        ensures met { OnOk result ((history : List GivenCell) (mark : ℕ) → StandsFor self.old history mark → length history ≡ at → (labels : ℕ)
            → StandsFor self.new (history ++ Live packet.now labels ∷ []) mark) }
        ensures quiet { (history : List GivenCell) (mark : ℕ) → has_failed self.old ≡ false → StandsFor self.old history mark
            → may_come (pid_of packet.now) history ≡ false → HasNoteRoom self.old → IsOk result }
        ensures spent { OnErr result (has_failed self.new ≡ true) }
        ensures stays_spent { has_failed self.old ≡ true → IsErr result }
        ensures reserved_notes { room_for_notes self.new ≡ room_for_notes self.old }
        ensures reserved_changes { room_for_changes self.new ≡ room_for_changes self.old }
    {
        self.failed.check()?;
        let answer = self.take(at, packet);
        self.failed.note(answer)?;
        Ok(())
    }

    // Notes the packet at a position.
    #[inline]
    fn take(&mut self, at: u64, packet: &Packet) -> Result<(), AllocError>
        requires met { StandsForSome self.old at }
        requires in_range { at < POSITION_LIMIT }
        ensures met { OnOk result ((history : List GivenCell) (mark : ℕ) → StandsFor self.old history mark → length history ≡ at → (labels : ℕ)
            → StandsFor self.new (history ++ Live packet.now labels ∷ []) mark) }
        ensures quiet { (history : List GivenCell) (mark : ℕ) → StandsFor self.old history mark
            → may_come (pid_of packet.now) history ≡ false → HasNoteRoom self.old → IsOk result }
        ensures reserved_notes { room_for_notes self.new ≡ room_for_notes self.old }
        ensures reserved_changes { room_for_changes self.new ≡ room_for_changes self.old }
    {
        self.services.meet(at, packet)?;
        let note = Note {
            at,
            pid: packet.pid(),
            has_payload: packet.has_payload(),
            is_scrambled: packet.scrambling() != 0,
            is_fault: meet_counter(&mut self.last, at, packet),
            has_pcr: packet.pcr().is_some(),
        };
        self.noted.push(note)?;
        Ok(())
    }
}

impl Plugin for Analyze {
    ghost use Rattle.std.specs.Prelude.{◌≡◌, ◌≢◌, ◌<◌, ℕ, List, IsOk, IsSome, refl, true, false};
    ghost use Rattle.ts_packet.specs.declared.cell.Cell.{Cell as GivenCell};
    ghost use Rattle.ts_packet.specs.Cells.{Dropped, Live};
    ghost use Rattle.ts_packet.specs.Header.{pid_of};
    ghost use Rattle.chain_model.specs.declared.positions.TheConstants.{POSITION_LIMIT};
    ghost use Rattle.plugin_trait.specs.Marks.{AllowsMark, GivesLines};
    ghost use Rattle.plugin_trait.specs.Steps.{HasRoom, Meets, MeetsCells, Tells, left_of};
    ghost use Rattle.plug_analyze.specs.AnalyzeRule.{analyze_rule};
    ghost use Rattle.plug_analyze.specs.AnalyzeStands.{HasNoteRoom, MeetsHistory, StandsFor, has_failed, may_come, room_for_changes, room_for_notes, preallocated_of};

    ghost rule = { λ s. analyze_rule };

    ghost stands_for = { λ s history mark. MeetsHistory s history mark };

    ghost preallocated = { λ s. preallocated_of s };

    /// The clauses are those of `Plugin`, whose ghost members have no names here, and four more: a packet on a PID on which no
    /// table in force may come needs no memory but the room for its note, a step that runs out of memory leaves the plugin
    /// failed, and the room for notes and for changes stays the same.
    // Inlined, since else the loop of `steps` makes a call for each cell.
    #[inline(always)]
    fn step(&mut self, at: u64, packet: &mut Packet, _labels: &mut Labels) -> Outcome
        requires met { MeetsCells (MeetsHistory self.old) at }
        requires in_range { at < POSITION_LIMIT }
        ensures tells { Tells analyze_rule (MeetsHistory self.old) at (Live packet.old _labels.old) result
            (left_of result packet.new _labels.new) }
        ensures meets { Meets (MeetsHistory self.old) (MeetsHistory self.new) at (Live packet.old _labels.old) result }
        ensures same_preallocated { preallocated_of self.new ≡ preallocated_of self.old }
        ensures room { HasRoom (preallocated_of self.old) (MeetsHistory self.old) at → result ≢ Outcome.NoMemory }
        ensures quiet { (history : List GivenCell) (mark : ℕ) → has_failed self.old ≡ false → StandsFor self.old history mark
            → may_come (pid_of packet.old) history ≡ false → HasNoteRoom self.old → result ≢ Outcome.NoMemory }
        ensures spent { result ≡ Outcome.NoMemory → has_failed self.new ≡ true }
        ensures reserved_notes { room_for_notes self.new ≡ room_for_notes self.old }
        ensures reserved_changes { room_for_changes self.new ≡ room_for_changes self.old }
    {
        match self.meet(at, packet) {
            Ok(()) => Outcome::Pass,
            Err(_) => Outcome::NoMemory,
        }
    }

    /// The clauses are those of `Plugin`, and one more: the plugin stays as it was.
    #[inline(always)]
    fn pass_over(&mut self, at: u64)
        requires met { MeetsCells (MeetsHistory self.old) at }
        requires in_range { at < POSITION_LIMIT }
        ensures meets { Meets (MeetsHistory self.old) (MeetsHistory self.new) at Dropped Outcome.Pass }
        ensures same { self.new ≡ self.old }
    {}

    /// The clauses are those of `Plugin`, and three more: it makes no plugin fail, and the room for notes and for
    /// changes stays the same.
    fn note(&mut self, written: u64, _lines: &mut Vec<Line>) -> Result<(), AllocError>
        requires { AllowsMark (MeetsHistory self.old) written }
        ensures gives { GivesLines analyze_rule (MeetsHistory self.old) (MeetsHistory self.new) written
            _lines.old.items _lines.new.items result }
        ensures same_preallocated { preallocated_of self.new ≡ preallocated_of self.old }
        ensures room { IsSome (preallocated_of self.old) → IsOk result }
        ensures whole { has_failed self.new ≡ has_failed self.old }
        ensures reserved_notes { room_for_notes self.new ≡ room_for_notes self.old }
        ensures reserved_changes { room_for_changes self.new ≡ room_for_changes self.old }
    {
        if self.failed.is_set() {
            return Ok(());
        }
        self.noted.fold_below(written);
        self.services.fold_below(written);
        Ok(())
    }

    fn agreed(&self) -> bool {
        false
    }

    fn summary(&self, at: u64, lines: &mut Vec<Line>) -> Result<(), AllocError> {
        self.failed.check()?;
        push_summary(lines, at, self.noted.totals(), self.services.as_slice())?;
        Ok(())
    }

    fn has_fault(&self, _cut: u64) -> bool {
        false
    }

    ghost starts_open = { λ plugin history mark stands. refl };
}
