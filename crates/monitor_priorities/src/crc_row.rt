//! The row of wrong CRCs.
ghost use Rattle.std.specs.Prelude.{◌≡◌, ◌++◌, ℕ, List, OnOk, map};
ghost use Rattle.plug_psi.specs.ForceStands.{StandsFor};
ghost use Rattle.monitor_priorities.specs.WrongTables as wrong;
ghost use Rattle.monitor_priorities.specs.RowErrors.{crc_error};

use crate::crc_reader::CrcReader;
use crate::telling::tell;
use monitor_lines::{Detail, Indicator, MonitorError};
use plug_psi::{ByPid, InForce, unfollowed_packets_change_nothing};
use std::alloc::{AllocError, Global};
use ts_packet::{NULL_PID, Packet};

/// What is kept of each PID on which CRCs are looked at (ETSI TR 101 290, 5.2.2, 2.2): PIDs 0, 1, 16, 17, 18 and 20, and those of
/// PMTs from the PAT on that names them. Of each it is at most one unfinished section.
#[derive(Drop)]
pub(crate) struct CrcRow {
    readers: ByPid<CrcReader>,
    alloc: Global,
}

impl CrcRow {
    ghost use Rattle.std.specs.Prelude.{◌≡◌, ◌∷◌, ◌++◌, [], ℕ, List, IfOk, OnOk, length};
    ghost use Rattle.ts_packet.specs.declared.cell.Cell.{Cell};
    ghost use Rattle.ts_packet.specs.Cells.{Live, live_packets};
    ghost use Rattle.plug_psi.specs.ForceStands.{StandsFor};
    ghost use Rattle.monitor_priorities.specs.RowErrors.{crc_errors};
    ghost use Rattle.monitor_priorities.specs.RowsStand.{IsCrcRow};

    /// No cell was met.
    pub(crate) fn new(alloc: Global) -> CrcRow
        ensures { IsCrcRow result [] }
    {
        CrcRow {
            readers: ByPid::new(alloc),
            alloc,
        }
    }

    /// The packet at a position, with the tables in force then. Its errors are told. After `AllocError` the row is not to be used
    /// any more.
    pub(crate) fn meet(
        &mut self,
        at: u64,
        packet: &Packet,
        force: &InForce,
        errors: &mut Vec<MonitorError>,
    ) -> Result<(), AllocError>
        ensures stands { OnOk result ((history : List Cell) (labels : ℕ) → IsCrcRow self.old history
            → StandsFor force.now (live_packets history ++ packet.now ∷ []) → IsCrcRow self.new (history ++ Live packet.now labels ∷ [])) }
        ensures tells { OnOk result ((history : List Cell) → IsCrcRow self.old history
            → StandsFor force.now (live_packets history ++ packet.now ∷ []) → length history ≡ at
            → errors.new.items ≡ errors.old.items ++ crc_errors history packet.now) }
    {
        // A law, which runs nothing.
        unfollowed_packets_change_nothing::<CrcReader>();
        let pid = packet.pid();
        if pid == NULL_PID {
            return Ok(());
        }
        if !is_read(pid, force) {
            return Ok(());
        }
        let tables = self.readers.take(self.alloc, at, &(), (), packet)?;
        tell_wrong(errors, at, pid, &tables)?;
        Ok(())
    }
}

// Whether CRCs are looked at on a PID, by the tables in force.
fn is_read(pid: u16, force: &InForce) -> bool
    ensures { (fed : List (List ℕ)) → StandsFor force.now fed → result ≡ wrong.is_read pid fed }
{
    if has_tables(pid) {
        return true;
    }
    force.follows(pid)
}

// Whether CRCs are looked at on a PID, whatever tables are in force.
fn has_tables(pid: u16) -> bool
    ensures { result ≡ wrong.has_tables pid }
{
    matches!(pid, 0 | 1 | 16 | 17 | 18 | 20)
}

// Tells the table_ids of sections with a wrong CRC.
fn tell_wrong(
    errors: &mut Vec<MonitorError>,
    at: u64,
    pid: u16,
    tables: &[u8],
) -> Result<(), AllocError>
    ensures { OnOk result (errors.new.items ≡ errors.old.items ++ map (crc_error at pid) tables.now) }
{
    for table in tables {
        tell(errors, at, Indicator::Crc, Detail::TableOn(pid, *table))?;
    }
    Ok(())
}
