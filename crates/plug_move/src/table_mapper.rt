//! Tables whose PIDs are mapped, in a running stream.

ghost use Rattle.std.specs.Prelude.{◌≡◌, ℕ, ◌<◌, ◌++◌, ◌∷◌, [], List, None, true, false, IfOk, IfSome, IsOk, MatchOption, OnOk, OnErr, IsErr};
ghost use Rattle.std.specs.Option.{ForSome};
ghost use Rattle.std.specs.List.{All};
ghost use Rattle.ts_packet.specs.Header.{pid_of};
ghost use Rattle.ts_packet.specs.declared.numbers.TheConstants.{PID_COUNT, NULL_PID as LAST_PID};
ghost use Rattle.ts_demux.specs.PidTables as reading;
ghost use Rattle.ts_demux.specs.TablesOn.{packets_on};
ghost use Rattle.plug_psi.specs.ForceStands as forcing;
ghost use Rattle.plug_psi.specs.Referred.{may_name_pids};
ghost use Rattle.plug_move.specs.CompletedTables.{IsCompleted};
ghost use Rattle.plug_move.specs.RemapRule.{is_edited, moved_edited, moved_to, with_tables};
ghost use Rattle.plug_move.specs.RemapSettings.{IsPidPair};
ghost use Rattle.plug_move.specs.Targets.{target_of};

use crate::move_table::MoveTable;
use crate::pid_edit::PidsOnTables;
use plug_psi::{
    ByPid, Changes, CycleEditor, FailureLatch, Given, InForce, unfollowed_packets_change_nothing,
};
use plugin_options::PairList;
use std::alloc::{AllocError, Global};
use std::sync::Arc;
use ts_demux::PidTables;
use ts_packet::{NULL_PID, PID_COUNT, Packet};
use ts_section::TableRun;

/// The PIDs of the PAT and of the CAT (ISO/IEC 13818-1, 2.4.3.3).
const PAT_PID: u16 = 0;

const CAT_PID: u16 = 1;

/// The editor of the tables on a PID, which others read.
type PidEditor = Given<CycleEditor<PidsOnTables>>;

/// Maps the PIDs in PAT, CAT and PMTs of a stream, and moves its packets.
///
/// It keeps the tables in force, which read PID 0 and the PIDs of PMTs, the reader of the CATs, and the editor of each PID
/// with edited tables.
#[derive(Drop)]
pub(crate) struct TableMapper {
    table: Arc<MoveTable>,
    force: InForce,
    cats: PidTables,
    editors: ByPid<PidEditor>,
    failed: FailureLatch,
    alloc: Global,
}

impl TableMapper {
    ghost use Rattle.plug_move.specs.MapperState.{StandsFor, has_failed};

    /// A new mapper, which has processed no packet. It allocates a table of PIDs of its own.
    pub(crate) fn new(alloc: Global, pairs: &PairList) -> Result<TableMapper, AllocError>
        requires { All IsPidPair pairs.now }
        ensures { IfOk result (λ mapper. StandsFor pairs.now mapper []) }
    {
        let table = Arc::new(alloc, MoveTable::of(alloc, pairs, true)?)?;
        let cats = PidTables::new(alloc, CAT_PID)?;
        // The largest value comes last: nothing can fail while it is held.
        let force = InForce::new(alloc)?;
        Ok(TableMapper {
            table,
            force,
            cats,
            editors: ByPid::new(alloc),
            failed: FailureLatch::unset(),
            alloc,
        })
    }

    /// Processes the packet at a position, whose PID has this target or none: edits and moves it. After `AllocError` the packet is as
    /// it was, and every later call returns `AllocError`. A packet on a PID whose tables are not edited needs no memory.
    pub(crate) fn step(
        &mut self,
        at: u64,
        packet: &mut Packet,
        target: Option<u16>,
    ) -> Result<(), AllocError>
        requires { ForSome target (λ pid. pid < PID_COUNT) }
        ensures mapped { OnOk result ((pairs : List (ℕ × ℕ)) (met : List (List ℕ)) → StandsFor pairs self.old met
            → target ≡ target_of pairs (pid_of packet.old) → packet.new ≡ with_tables pairs met packet.old) }
        ensures stands { OnOk result ((pairs : List (ℕ × ℕ)) (met : List (List ℕ)) → StandsFor pairs self.old met
            → StandsFor pairs self.new (met ++ packet.old ∷ [])) }
        ensures as_it_was { OnErr result (packet.new ≡ packet.old) }
        ensures spent { OnErr result (has_failed self.new ≡ true) }
        ensures stays_spent { has_failed self.old ≡ true → IsErr result }
        ensures quiet { (pairs : List (ℕ × ℕ)) (met : List (List ℕ)) → StandsFor pairs self.old met
            → may_name_pids (pid_of packet.old) met ≡ false → IsOk result }
    {
        self.failed.check()?;
        let answer = self.advance(at, packet, target);
        self.failed.note(answer)?;
        Ok(())
    }

    /// Adds the PIDs of PAT, CAT and PMTs, if tables changed there without a new version.
    pub(crate) fn add_changes(&self, changes: &mut Changes) -> Result<(), AllocError> {
        self.force.add_changes(changes)?;
        changes.add(CAT_PID, self.cats.changed())
    }

    /// Processes the next packet, unless memory ran out before.
    fn advance(
        &mut self,
        at: u64,
        packet: &mut Packet,
        target: Option<u16>,
    ) -> Result<(), AllocError>
        requires { ForSome target (λ pid. pid < PID_COUNT) }
        ensures mapped { OnOk result ((pairs : List (ℕ × ℕ)) (met : List (List ℕ)) → StandsFor pairs self.old met
            → target ≡ target_of pairs (pid_of packet.old) → packet.new ≡ with_tables pairs met packet.old) }
        ensures stands { OnOk result ((pairs : List (ℕ × ℕ)) (met : List (List ℕ)) → StandsFor pairs self.old met
            → StandsFor pairs self.new (met ++ packet.old ∷ [])) }
        ensures as_it_was { OnErr result (packet.new ≡ packet.old) }
        ensures same_failed { has_failed self.new ≡ has_failed self.old }
        ensures quiet { (pairs : List (ℕ × ℕ)) (met : List (List ℕ)) → StandsFor pairs self.old met
            → may_name_pids (pid_of packet.old) met ≡ false → IsOk result }
    {
        // A law, which runs nothing.
        unfollowed_packets_change_nothing::<PidEditor>();
        let tables = tables_with(at, &mut self.force, &mut self.cats, packet)?;
        let Some(tables) = tables else {
            move_to(packet, target);
            return Ok(());
        };
        let new = self
            .editors
            .take(self.alloc, at, &self.table, tables, packet)?;
        *packet = new;
        move_edited(packet, target);
        Ok(())
    }
}

/// Sets the PID of a packet to the target, if there is one.
pub(crate) fn move_to(packet: &mut Packet, target: Option<u16>)
    requires { ForSome target (λ pid. pid < PID_COUNT) }
    ensures { packet.new ≡ moved_to target packet.old }
{
    if let Some(target) = target {
        packet.set_pid(target);
    }
}

/// The same for a packet that an editor put in, unless it is a null packet.
fn move_edited(packet: &mut Packet, target: Option<u16>)
    requires { ForSome target (λ pid. pid < PID_COUNT) }
    ensures { packet.new ≡ moved_edited target packet.old }
{
    if packet.pid() == NULL_PID {
        return;
    }
    move_to(packet, target);
}

/// The tables that a packet completes on its PID, if the tables there are edited. Each is read once: the PATs and PMTs are
/// those that the tables in force have read.
fn tables_with(
    at: u64,
    force: &mut InForce,
    cats: &mut PidTables,
    packet: &Packet,
) -> Result<Option<Vec<TableRun>>, AllocError>
    ensures force { OnOk result ((met : List (List ℕ)) → forcing.StandsFor force.old met → forcing.StandsFor force.new (met ++ packet.now ∷ [])) }
    ensures cats { OnOk result ((met : List (List ℕ)) → reading.StandsFor cats.old 1 (packets_on 1 met)
        → reading.StandsFor cats.new 1 (packets_on 1 (met ++ packet.now ∷ []))) }
    ensures tables { IfOk result (λ tables. (met : List (List ℕ)) → forcing.StandsFor force.old met → reading.StandsFor cats.old 1 (packets_on 1 met)
        → MatchOption tables (is_edited (pid_of packet.now) (met ++ packet.now ∷ []) ≡ false) (λ tables. IsCompleted met packet.now tables.items)) }
    ensures in_range { IfOk result (λ tables. IfSome tables (λ _. pid_of packet.now < LAST_PID)) }
    ensures quiet { (met : List (List ℕ)) → forcing.StandsFor force.old met → may_name_pids (pid_of packet.now) met ≡ false → result ≡ Ok None }
{
    force.update(at, packet)?;
    let pid = packet.pid();
    if pid == PAT_PID {
        return Ok(Some(force.take_pats()));
    }
    if pid == CAT_PID {
        let tables = cats.take(at, packet)?;
        return Ok(Some(tables));
    }
    if pid == NULL_PID {
        return Ok(None);
    }
    if force.follows(pid) {
        return Ok(Some(force.take_pmts()));
    }
    Ok(None)
}
