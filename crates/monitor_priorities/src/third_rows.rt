//! The rows of priority 3.
ghost use Rattle.std.specs.Prelude.{◌≡◌, ◌++◌, OnOk, map};
ghost use Rattle.monitor_priorities.specs.RowErrors.{orphan_error};

use crate::event_rows::EventRows;
use crate::section_row::SectionRow;
use crate::service_tables::ServiceTables;
use crate::telling::tell;
use monitor_keys::Span;
use monitor_lines::{Detail, Indicator, MonitorError};
use monitor_orphans::Orphans;
use plug_psi::Referred;
use std::alloc::{AllocError, Global};
use ts_packet::Packet;

/// The PID of RSTs.
const RST_PID: u16 = 19;

/// What is kept for the indicators of priority 3 (ETSI TR 101 290, 5.2.3): 3.1 and 3.4 to 3.8.
#[derive(Drop)]
pub struct ThirdRows {
    tables: ServiceTables,
    orphans: Orphans,
    eits: EventRows,
    rst: SectionRow,
}

impl ThirdRows {
    ghost use Rattle.std.specs.Prelude.{◌≡◌, ◌∷◌, ◌++◌, [], ℕ, List, Option, IfOk, OnOk};
    ghost use Rattle.ts_packet.specs.declared.cell.Cell.{Cell};
    ghost use Rattle.ts_packet.specs.Cells.{Live, live_packets};
    ghost use Rattle.plug_psi.specs.ReferredStands.{StandsFor};
    ghost use Rattle.monitor_keys.specs.Keys.{span_on};
    ghost use Rattle.monitor_priorities.specs.PriorityErrors.{third_errors};
    ghost use Rattle.monitor_priorities.specs.RowsStand.{HasThird};

    /// No cell was met.
    pub fn new(alloc: Global) -> Result<ThirdRows, AllocError>
        ensures { IfOk result (λ rows. (pcr_pid : Option ℕ) → HasThird pcr_pid rows []) }
    {
        Ok(ThirdRows {
            orphans: Orphans::new(alloc)?,
            rst: SectionRow::new(alloc, RST_PID, Indicator::Rst)?,
            eits: EventRows::new(alloc)?,
            tables: ServiceTables::new(alloc)?,
        })
    }

    /// The packet of a span, with the PIDs that are referred to then. Its errors are told. After `AllocError` the rows are not to
    /// be used any more.
    pub fn meet(
        &mut self,
        span: &Span,
        packet: &Packet,
        referred: &Referred,
        errors: &mut Vec<MonitorError>,
    ) -> Result<(), AllocError>
        ensures stands { OnOk result ((pcr_pid : Option ℕ) (history : List Cell) (labels : ℕ) → HasThird pcr_pid self.old history
            → span.now ≡ span_on pcr_pid history packet.now → StandsFor referred.now (live_packets history ++ packet.now ∷ [])
            → HasThird pcr_pid self.new (history ++ Live packet.now labels ∷ [])) }
        ensures tells { OnOk result ((pcr_pid : Option ℕ) (history : List Cell) → HasThird pcr_pid self.old history
            → span.now ≡ span_on pcr_pid history packet.now → StandsFor referred.now (live_packets history ++ packet.now ∷ [])
            → errors.new.items ≡ errors.old.items ++ third_errors pcr_pid history packet.now) }
    {
        self.tables.nit.meet(span, packet, true, errors)?;
        let orphans = self.orphans.meet(span, packet, referred)?;
        tell_orphans(errors, span.at, &orphans)?;
        self.tables.sdt.meet(span, packet, true, errors)?;
        self.eits.meet(span, packet, errors)?;
        self.rst.meet(span.at, packet, errors)?;
        self.tables.tdt.meet(span, packet, true, errors)?;
        Ok(())
    }
}

// Tells the PIDs to which no table refers.
fn tell_orphans(errors: &mut Vec<MonitorError>, at: u64, pids: &[u16]) -> Result<(), AllocError>
    ensures { OnOk result (errors.new.items ≡ errors.old.items ++ map (orphan_error at) pids.now) }
{
    for pid in pids {
        tell(errors, at, Indicator::Unreferenced, Detail::OnPid(*pid))?;
    }
    Ok(())
}
