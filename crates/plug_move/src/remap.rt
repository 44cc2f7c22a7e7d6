//! The plugin `remap`.

ghost use Rattle.std.specs.Prelude.{◌≡◌, ◌≢◌, ◌<◌, ℕ, List, IfOk, [], None, Some, false, is_none, if◌then◌else◌};
ghost use Rattle.std.specs.Option.{ForSome};
ghost use Rattle.ts_packet.specs.declared.numbers.TheConstants.{PID_COUNT};
ghost use Rattle.plug_move.specs.RemapRule.{remap_rule};
ghost use Rattle.plug_move.specs.RemapSettings.{IsValidRemap};
ghost use Rattle.plug_move.specs.RemapState.{GoesOn, IsWorking, MapperStands};
ghost use Rattle.plug_psi.specs.Referred.{may_name_pids};
ghost use Rattle.ts_packet.specs.Header.{pid_of};

use crate::move_table::{Move, MoveTable};
use crate::remap_conf::RemapConf;
use crate::table_mapper::{TableMapper, move_to};
use plug_psi::Changes;
use plugin_trait::{FirstFind, Outcome, Plugin, Reason, Silent, Steps};
use std::alloc::{AllocError, Global};
use ts_packet::{Labels, PID_COUNT, Packet};

/// Moves packets to other PIDs. Unless targets are unchecked, it refuses a packet that comes in on a target which is not a
/// source. Unless tables are left as they are, the PIDs that PAT, CAT and PMTs name are mapped too.
///
/// If tables are edited, a step may run out of memory. Then every later step on a live cell does too, unless its packet is
/// refused.
#[derive(Drop)]
pub struct RemapSteps {
    table: MoveTable,
    tables: Option<TableMapper>,
    /// The first position at which a packet was moved.
    found: FirstFind,
    buffer: usize,
}

/// The plugin `remap`.
pub type Remap = Silent<RemapSteps>;

/// A new plugin, which has processed no cell. It allocates its table of PIDs; its steps allocate nothing if tables are
/// left as they are.
pub fn new_remap(alloc: Global, conf: &RemapConf, buffer: usize) -> Result<Remap, AllocError>
    requires { IsValidRemap conf.now }
    ensures rule { IfOk result (λ plugin. ⟦<Remap as Plugin>⟧.rule plugin ≡ remap_rule conf.now) }
    ensures fresh { IfOk result (λ plugin. ⟦<Remap as Plugin>⟧.stands_for plugin [] 0) }
    ensures preallocated { IfOk result (λ plugin. ⟦<Remap as Plugin>⟧.preallocated plugin
        ≡ (if conf.now.no_psi then Some buffer else None)) }
{
    let steps = RemapSteps {
        table: MoveTable::of(alloc, &conf.operand, conf.unchecked)?,
        tables: tables_of(alloc, conf)?,
        found: FirstFind::none(),
        buffer,
    };
    Ok(Silent { steps })
}

impl RemapSteps {
    /// Whether a packet came on one of the PIDs that are moved.
    pub fn has_moved(&self) -> bool {
        !self.found.is_none_below(u64::MAX)
    }

    /// Adds the PIDs whose tables are edited, if tables changed there without a new version.
    pub fn add_changes(&self, changes: &mut Changes) -> Result<(), AllocError> {
        match &self.tables {
            Some(mapper) => mapper.add_changes(changes),
            None => Ok(()),
        }
    }
}

impl Steps for RemapSteps {
    ghost use Rattle.std.specs.Prelude.{◌≡◌, ◌≢◌, ◌<◌, List, false, refl};
    ghost use Rattle.ts_packet.specs.declared.cell.Cell.{Cell};
    ghost use Rattle.ts_packet.specs.Cells.{Live, live_packets};
    ghost use Rattle.ts_packet.specs.Header.{pid_of};
    ghost use Rattle.chain_model.specs.declared.positions.TheConstants.{POSITION_LIMIT};
    ghost use Rattle.plugin_trait.specs.Steps.{HasRoom, MeetsCells, Meets, Tells, left_of};
    ghost use Rattle.plugin_trait.specs.Unmarked.{unmarked};
    ghost use Rattle.plug_psi.specs.Referred.{may_name_pids};
    ghost use Rattle.plug_move.specs.RemapRule.{remap_rule};
    ghost use Rattle.plug_move.specs.RemapState.{IsWorking, MeetsHistory, conf_of, room_of};

    ghost rule = { λ s. remap_rule (conf_of s) };

    ghost stands_for = { λ s history. MeetsHistory s history };

    ghost preallocated = { λ s. room_of s.tables s.buffer };

    /// The clauses are those of `Steps`, whose ghost members have no names here, and one more: a packet on a PID whose
    /// tables are not edited needs no memory.
    #[inline]
    fn step(&mut self, at: u64, packet: &mut Packet, _labels: &mut Labels) -> Outcome
        requires met { MeetsCells (unmarked (MeetsHistory self.old)) at }
        requires in_range { at < POSITION_LIMIT }
        ensures tells { Tells (remap_rule (conf_of self.old)) (unmarked (MeetsHistory self.old)) at
            (Live packet.old _labels.old) result (left_of result packet.new _labels.new) }
        ensures meets { Meets (unmarked (MeetsHistory self.old)) (unmarked (MeetsHistory self.new)) at
            (Live packet.old _labels.old) result }
        ensures same_rule { remap_rule (conf_of self.new) ≡ remap_rule (conf_of self.old) }
        ensures same_preallocated { room_of self.new.tables self.new.buffer ≡ room_of self.old.tables self.old.buffer }
        ensures room { HasRoom (room_of self.old.tables self.old.buffer) (unmarked (MeetsHistory self.old)) at → result ≢ Outcome.NoMemory }
        ensures quiet { (history : List Cell) → IsWorking self.old.table.0 self.old.tables (live_packets history)
            → may_name_pids (pid_of packet.old) (live_packets history) ≡ false → result ≢ Outcome.NoMemory }
    {
        let pid = packet.pid();
        match self.table.look_up(pid) {
            Move::Keep => go_on(&mut self.tables, at, packet, None),
            Move::To(target) => {
                let outcome = go_on(&mut self.tables, at, packet, Some(target));
                self.found.meet(at, outcome == Outcome::Pass);
                outcome
            }
            Move::Refuse => Outcome::Refuse(Reason::Pid(pid)),
        }
    }

    fn pass_over(&mut self, _at: u64) {}

    fn has_fault(&self, cut: u64) -> bool {
        self.found.is_none_below(cut)
    }

    ghost quiet = { λ plugin. record { no_lines = λ history packet labels. refl; no_summary = λ history. refl } };

    ghost never_agrees = { λ plugin history. refl };
}

/// The mapper that edits tables; `None` if they are left as they are.
fn tables_of(alloc: Global, conf: &RemapConf) -> Result<Option<TableMapper>, AllocError>
    requires { IsValidRemap conf.now }
    ensures none { IfOk result (λ tables. is_none tables ≡ conf.now.no_psi) }
    ensures fresh { IfOk result (λ tables. MapperStands conf.now.operand tables []) }
{
    if conf.no_psi {
        return Ok(None);
    }
    let mapper = TableMapper::new(alloc, &conf.operand)?;
    Ok(Some(mapper))
}

/// Edits and moves the packet at a position, which is not refused. One on a PID whose tables are not edited needs no memory.
#[inline]
fn go_on(
    tables: &mut Option<TableMapper>,
    at: u64,
    packet: &mut Packet,
    target: Option<u16>,
) -> Outcome
    requires { ForSome target (λ pid. pid < PID_COUNT) }
    ensures made { GoesOn tables.old tables.new target packet.old packet.new result }
    ensures same { is_none tables.new ≡ is_none tables.old }
    ensures quiet { (pairs : List (ℕ × ℕ)) (met : List (List ℕ)) → IsWorking pairs tables.old met
        → may_name_pids (pid_of packet.old) met ≡ false → result ≢ Outcome.NoMemory }
{
    let Some(mapper) = tables else {
        move_to(packet, target);
        return Outcome::Pass;
    };
    match mapper.step(at, packet, target) {
        Ok(()) => Outcome::Pass,
        Err(_) => Outcome::NoMemory,
    }
}
