//! The plugin `tables`.

ghost use Rattle.std.specs.Prelude.{◌≡◌, ◌<◌, ◌∷◌, ◌++◌, IfSome, IfNone, OnOk, OnErr, length, nat_lt};
ghost use Rattle.std.specs.List.{take_while};
ghost use Rattle.plug_tables.specs.TablesState.{StartsFrom};

use crate::table_reader::TableReader;
use crate::tables_conf::TablesConf;
use crate::telling::tell_tables;
use plug_psi::{Changes, FailureLatch};
use plugin_options::NumberSet;
use plugin_trait::{Line, Outcome, Plugin};
use std::alloc::{AllocError, Global};
use std::collections::VecDeque;
use ts_packet::{Labels, Packet};

/// Reports the tables of a stream as JSON, each at the packet that completes it.
///
/// If a step runs out of memory, every later step does too, and no line is given out any more.
#[derive(Drop)]
pub struct Tables {
    reader: TableReader,
    tids: NumberSet,
    /// The lines from the greatest mark on, in the order of their positions.
    told: VecDeque<Line>,
    /// Whether there were lines when a mark came.
    had_lines: bool,
    failed: FailureLatch,
    alloc: Global,
}

impl Tables {
    ghost use Rattle.std.specs.Prelude.{◌≡◌, ◌<◌, ◌∷◌, ◌++◌, IfOk, OnOk, OnErr, IsErr, IsOk, [], None, ℕ, List, length, true, false};
    ghost use Rattle.ts_packet.specs.declared.cell.Cell.{Cell as GivenCell};
    ghost use Rattle.ts_packet.specs.Cells.{Live, live_packets};
    ghost use Rattle.plug_tables.specs.TablesRule.{tables_rule};
    ghost use Rattle.plug_tables.specs.TablesSettings.{IsValidTables};
    ghost use Rattle.plug_tables.specs.TableReaderState.{choice_in};
    ghost use Rattle.plug_tables.specs.TablesStands.{StandsFor, has_failed, rule_in};
    ghost use Rattle.plug_tables.specs.WatchedPackets.{may_be_read};

    /// A new plugin, which has processed no cell. What is kept of the tables grows with the stream.
    pub fn new(alloc: Global, conf: &TablesConf, buffer: usize) -> Result<Tables, AllocError>
        requires { IsValidTables conf.now }
        ensures rule { IfOk result (λ plugin. ⟦<Tables as Plugin>⟧.rule plugin ≡ tables_rule conf.now) }
        ensures fresh { IfOk result (λ plugin. ⟦<Tables as Plugin>⟧.stands_for plugin [] 0) }
        ensures preallocated { IfOk result (λ plugin. ⟦<Tables as Plugin>⟧.preallocated plugin ≡ None) }
    {
        let _ = buffer;
        let tids = NumberSet::of(Vec::from_slice(alloc, conf.tid.as_slice())?);
        // The largest value comes last: nothing can fail while it is held.
        let reader = TableReader::new(alloc, &conf.pid)?;
        Ok(Tables {
            reader,
            tids,
            told: VecDeque::new(alloc),
            had_lines: false,
            failed: FailureLatch::unset(),
            alloc,
        })
    }

    /// Whether a table was read that is reported.
    pub fn has_read(&self) -> bool {
        self.had_lines || self.told.front().is_some()
    }

    /// Adds the watched PIDs on which tables changed without a new version.
    pub fn add_changes(&self, changes: &mut Changes) -> Result<(), AllocError> {
        self.reader.add_changes(changes)
    }

    // Processes the packet at a position, unless memory ran out before.
    fn meet(&mut self, at: u64, packet: &Packet) -> Result<(), AllocError>
        ensures met { OnOk result ((history : List GivenCell) (mark : ℕ) → StandsFor self.old history mark → length history ≡ at → (labels : ℕ)
            → StandsFor self.new (history ++ Live packet.now labels ∷ []) mark) }
        ensures same_rule { rule_in self.new ≡ rule_in self.old }
        ensures spent { OnErr result (has_failed self.new ≡ true) }
        ensures stays_spent { has_failed self.old ≡ true → IsErr result }
        ensures quiet { (history : List GivenCell) (mark : ℕ) → has_failed self.old ≡ false → StandsFor self.old history mark
            → may_be_read (choice_in self.old.reader) (live_packets history) packet.now ≡ false → IsOk result }
    {
        self.failed.check()?;
        let answer = self.take(at, packet);
        self.failed.note(answer)?;
        Ok(())
    }

    // Adds the lines of the tables that the packet at a position completes.
    fn take(&mut self, at: u64, packet: &Packet) -> Result<(), AllocError>
        ensures met { OnOk result ((history : List GivenCell) (mark : ℕ) → StandsFor self.old history mark → length history ≡ at → (labels : ℕ)
            → StandsFor self.new (history ++ Live packet.now labels ∷ []) mark) }
        ensures same_rule { rule_in self.new ≡ rule_in self.old }
        ensures quiet { (history : List GivenCell) (mark : ℕ) → StandsFor self.old history mark
            → may_be_read (choice_in self.old.reader) (live_packets history) packet.now ≡ false → IsOk result }
    {
        let tables = self.reader.meet(at, packet)?;
        let pid = packet.pid();
        tell_tables(self.alloc, &mut self.told, &self.tids, at, pid, &tables)?;
        Ok(())
    }
}

// Removes the first line and returns it, if it is below a position.
fn pop_below(told: &mut VecDeque<Line>, mark: u64) -> Option<Line>
    ensures taken { IfSome result (λ line. (told.old.items ≡ line ∷ told.new.items) × (line.at < mark)) }
    ensures left { IfNone result ((told.new.items ≡ told.old.items) × StartsFrom mark told.old.items) }
{
    if told.front()?.at >= mark {
        return None;
    }
    told.pop_front()
}

// How many lines are below a position.
fn count_below(told: &VecDeque<Line>, mark: u64) -> usize
    ensures { result ≡ length (take_while (λ line. nat_lt line.at mark) told.now.items) }
{
    let mut count = 0;
    while let Some(line) = told.get(count) {
        if line.at >= mark {
            break;
        }
        count += 1;
    }
    count
}

// Moves the lines below a position to the end of others. Out of memory none is moved.
fn give_below(told: &mut VecDeque<Line>, lines: &mut Vec<Line>, mark: u64) -> Result<(), AllocError>
    ensures given { OnOk result (lines.new.items ≡ lines.old.items ++ take_while (λ line. nat_lt line.at mark) told.old.items) }
    ensures left { OnOk result (take_while (λ line. nat_lt line.at mark) told.old.items ++ told.new.items ≡ told.old.items) }
    ensures err { OnErr result ((told.new.items ≡ told.old.items) × (lines.new.items ≡ lines.old.items)) }
{
    lines.reserve(count_below(told, mark))?;
    while let Some(line) = pop_below(told, mark) {
        lines.push_reserved(line);
    }
    Ok(())
}

impl Plugin for Tables {
    ghost use Rattle.std.specs.Prelude.{◌≡◌, ◌≢◌, ◌<◌, ℕ, List, false, None, refl};
    ghost use Rattle.ts_packet.specs.declared.cell.Cell.{Cell as GivenCell};
    ghost use Rattle.ts_packet.specs.Cells.{Live, live_packets};
    ghost use Rattle.chain_model.specs.declared.positions.TheConstants.{POSITION_LIMIT};
    ghost use Rattle.plugin_trait.specs.Steps.{HasRoom, Meets, MeetsCells, Tells, left_of};
    ghost use Rattle.plug_tables.specs.TableReaderState.{choice_in};
    ghost use Rattle.plug_tables.specs.TablesStands.{MeetsHistory, StandsFor, has_failed, rule_in};
    ghost use Rattle.plug_tables.specs.WatchedPackets.{may_be_read};

    ghost rule = { λ s. rule_in s };

    ghost stands_for = { λ s history mark. MeetsHistory s history mark };

    ghost preallocated = { λ _. None };

    /// The clauses are those of `Plugin`, whose ghost members have no names here, and one more: a packet that is not read
    /// needs no memory.
    #[inline]
    fn step(&mut self, at: u64, packet: &mut Packet, _labels: &mut Labels) -> Outcome
        requires met { MeetsCells (MeetsHistory self.old) at }
        requires in_range { at < POSITION_LIMIT }
        ensures tells { Tells (rule_in self.old) (MeetsHistory self.old) at (Live packet.old _labels.old) result
            (left_of result packet.new _labels.new) }
        ensures meets { Meets (MeetsHistory self.old) (MeetsHistory self.new) at (Live packet.old _labels.old) result }
        ensures same_rule { rule_in self.new ≡ rule_in self.old }
        ensures room { HasRoom None (MeetsHistory self.old) at → result ≢ Outcome.NoMemory }
        ensures quiet { (history : List GivenCell) (mark : ℕ) → has_failed self.old ≡ false → StandsFor self.old history mark
            → may_be_read (choice_in self.old.reader) (live_packets history) packet.old ≡ false → result ≢ Outcome.NoMemory }
    {
        match self.meet(at, packet) {
            Ok(()) => Outcome::Pass,
            Err(_) => Outcome::NoMemory,
        }
    }

    fn pass_over(&mut self, _at: u64) {}

    fn note(&mut self, written: u64, lines: &mut Vec<Line>) -> Result<(), AllocError> {
        self.failed.check()?;
        self.had_lines = self.has_read();
        give_below(&mut self.told, lines, written)?;
        Ok(())
    }

    fn agreed(&self) -> bool {
        false
    }

    fn summary(&self, _at: u64, _lines: &mut Vec<Line>) -> Result<(), AllocError> {
        Ok(())
    }

    fn has_fault(&self, _cut: u64) -> bool {
        false
    }

    ghost starts_open = { λ plugin history mark stands. refl };
}
