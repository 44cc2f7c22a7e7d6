//! The plugin `info`.
ghost use Rattle.std.specs.Prelude.{◌≡◌, IfOk, [], None};
ghost use Rattle.plug_info.specs.InfoRule.{info_rule};

use crate::info_conf::InfoConf;
use crate::met_cells::MetCells;
use crate::report::push_report;
use plug_psi::{Changes, FailureLatch};
use plugin_trait::{Line, Outcome, Plugin};
use std::alloc::{AllocError, Global};
use ts_packet::{Cell, Labels, Packet};

/// Reports what is in the stream: its services by name, their components, and how much of the rate each takes.
///
/// If a step runs out of memory, every later step does too, and nothing is reported.
#[derive(Drop)]
pub struct Info {
    json: bool,
    met: MetCells,
    failed: FailureLatch,
}

impl Info {
    ghost use Rattle.std.specs.Prelude.{◌≡◌, ◌<◌, ◌∷◌, ◌++◌, IfOk, OnOk, OnErr, IsErr, [], None, ℕ, List, length, true, false};
    ghost use Rattle.ts_packet.specs.declared.cell.Cell.{Cell as GivenCell};
    ghost use Rattle.chain_model.specs.declared.positions.TheConstants.{POSITION_LIMIT};
    ghost use Rattle.plug_info.specs.InfoRule.{info_rule};
    ghost use Rattle.plug_info.specs.InfoSettings.{IsValidInfo};
    ghost use Rattle.plug_info.specs.InfoStands.{IsFull, StandsFor, has_failed, room_of};

    /// A new plugin, which has processed no cell. It allocates its tables, and room for as many cells as the buffer
    /// holds; the tables in force grow with the stream.
    pub fn new(alloc: Global, conf: &InfoConf, buffer: usize) -> Result<Info, AllocError>
        requires { IsValidInfo conf.now }
        ensures rule { IfOk result (λ plugin. ⟦<Info as Plugin>⟧.rule plugin ≡ info_rule conf.now) }
        ensures fresh { IfOk result (λ plugin. ⟦<Info as Plugin>⟧.stands_for plugin [] 0) }
        ensures preallocated { IfOk result (λ plugin. ⟦<Info as Plugin>⟧.preallocated plugin ≡ None) }
        ensures whole { IfOk result (λ plugin. has_failed plugin ≡ false) }
        ensures reserved { IfOk result (λ plugin. room_of plugin ≡ buffer) }
    {
        Ok(Info {
            json: conf.json,
            met: MetCells::new(alloc, buffer)?,
            failed: FailureLatch::unset(),
        })
    }

    /// Adds the PIDs on which tables changed without a new version. After a mark it knows all cells below it.
    pub fn add_changes(&self, changes: &mut Changes) -> Result<(), AllocError> {
        self.met.tracker.add_changes(changes)
    }

    // Processes the next cell, unless memory ran out before.
    #[inline]
    fn meet(&mut self, cell: Cell) -> Result<(), AllocError>
        ensures met { OnOk result ((history : List GivenCell) (mark : ℕ) → StandsFor self.old history mark
            → length history < POSITION_LIMIT
            → StandsFor self.new (history ++ cell ∷ []) mark) }
        ensures same { self.new.json ≡ self.old.json }
        ensures spent { OnErr result (has_failed self.new ≡ true) }
        ensures stays_spent { has_failed self.old ≡ true → IsErr result }
        ensures full { has_failed self.old ≡ false → has_failed self.new ≡ true → IsFull self.old }
        ensures reserved { room_of self.new ≡ room_of self.old }
    {
        self.failed.check()?;
        let answer = self.met.push(cell);
        self.failed.note(answer)?;
        Ok(())
    }
}

impl Plugin for Info {
    ghost use Rattle.std.specs.Prelude.{◌≡◌, ◌≢◌, ◌<◌, IsOk, IsSome, None, false, refl, true};
    ghost use Rattle.ts_packet.specs.Cells.{Dropped, Live};
    ghost use Rattle.chain_model.specs.declared.positions.TheConstants.{POSITION_LIMIT};
    ghost use Rattle.plugin_trait.specs.Marks.{AllowsMark, GivesLines};
    ghost use Rattle.plugin_trait.specs.Steps.{HasRoom, Meets, MeetsCells, Tells, left_of};
    ghost use Rattle.plug_info.specs.InfoRule.{info_rule};
    ghost use Rattle.plug_info.specs.InfoStands.{IsFull, MeetsHistory, conf_of, has_failed, room_of, preallocated_of};

    ghost rule = { λ s. info_rule (conf_of s) };

    ghost stands_for = { λ s history mark. MeetsHistory s history mark };

    ghost preallocated = { λ s. preallocated_of s };

    /// The clauses are those of `Plugin`, whose ghost members have no names here, and three more: a step that runs out
    /// of memory leaves the plugin failed, only a full buffer makes it fail, and the room for cells stays the same.
    // Inlined always: otherwise the loop of `steps` has a call for each cell.
    #[inline(always)]
    fn step(&mut self, _at: u64, packet: &mut Packet, labels: &mut Labels) -> Outcome
        requires met { MeetsCells (MeetsHistory self.old) _at }
        requires in_range { _at < POSITION_LIMIT }
        ensures tells { Tells (info_rule (conf_of self.old)) (MeetsHistory self.old) _at (Live packet.old labels.old) result
            (left_of result packet.new labels.new) }
        ensures meets { Meets (MeetsHistory self.old) (MeetsHistory self.new) _at (Live packet.old labels.old) result }
        ensures same_rule { info_rule (conf_of self.new) ≡ info_rule (conf_of self.old) }
        ensures same_preallocated { preallocated_of self.new ≡ preallocated_of self.old }
        ensures room { HasRoom (preallocated_of self.old) (MeetsHistory self.old) _at → result ≢ Outcome.NoMemory }
        ensures spent { result ≡ Outcome.NoMemory → has_failed self.new ≡ true }
        ensures full { has_failed self.old ≡ false → has_failed self.new ≡ true → IsFull self.old }
        ensures reserved { room_of self.new ≡ room_of self.old }
    {
        match self.meet(Cell::of(*packet, *labels)) {
            Ok(()) => Outcome::Pass,
            Err(_) => Outcome::NoMemory,
        }
    }

    /// The clauses are those of `Plugin`, and two more: only a full buffer makes the plugin fail, and the room for
    /// cells stays the same.
    #[inline(always)]
    fn pass_over(&mut self, _at: u64)
        requires met { MeetsCells (MeetsHistory self.old) _at }
        requires in_range { _at < POSITION_LIMIT }
        ensures meets { Meets (MeetsHistory self.old) (MeetsHistory self.new) _at Dropped Outcome.Pass }
        ensures same_rule { info_rule (conf_of self.new) ≡ info_rule (conf_of self.old) }
        ensures same_preallocated { preallocated_of self.new ≡ preallocated_of self.old }
        ensures full { has_failed self.old ≡ false → has_failed self.new ≡ true → IsFull self.old }
        ensures reserved { room_of self.new ≡ room_of self.old }
    {
        let _ = self.meet(Cell::dropped());
    }

    /// The clauses are those of `Plugin`, and two more: it makes the plugin fail only where it runs out of memory
    /// itself, and the room for cells stays the same.
    fn note(&mut self, written: u64, _lines: &mut Vec<Line>) -> Result<(), AllocError>
        requires { AllowsMark (MeetsHistory self.old) written }
        ensures gives { GivesLines (info_rule (conf_of self.old)) (MeetsHistory self.old) (MeetsHistory self.new) written
            _lines.old.items _lines.new.items result }
        ensures same_rule { info_rule (conf_of self.new) ≡ info_rule (conf_of self.old) }
        ensures same_preallocated { preallocated_of self.new ≡ preallocated_of self.old }
        ensures room { IsSome (preallocated_of self.old) → IsOk result }
        ensures spent { IsOk result → has_failed self.new ≡ has_failed self.old }
        ensures reserved { room_of self.new ≡ room_of self.old }
    {
        if self.failed.is_set() {
            return Ok(());
        }
        let answer = self.met.take_below(written);
        self.failed.note(answer)?;
        Ok(())
    }

    fn agreed(&self) -> bool {
        false
    }

    fn summary(&self, at: u64, lines: &mut Vec<Line>) -> Result<(), AllocError> {
        self.failed.check()?;
        push_report(lines, at, &self.met.tracker, self.json)?;
        Ok(())
    }

    fn has_fault(&self, _cut: u64) -> bool {
        false
    }

    ghost starts_open = { λ plugin history mark stands. refl };
}
