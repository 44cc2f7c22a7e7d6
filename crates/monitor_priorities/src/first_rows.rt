//! The rows of priority 1.
ghost use Rattle.std.specs.Prelude.{◌≡◌, ◌++◌, OnOk, option_to_list, map};
ghost use Rattle.monitor_priorities.specs.RowErrors.{counter_error};

use crate::table_kind::TableKind;
use crate::table_row::TableRow;
use crate::telling::{tell, tell_if};
use monitor_counters::{CounterError, LastMets};
use monitor_keys::{KeyLimit, Span};
use monitor_lines::{Detail, Indicator, Missing, MonitorError};
use monitor_services::{PidKind, PidRow, PmtRow};
use monitor_tables::{PAT_LIMIT, is_scrambled_pat};
use plug_psi::InForce;
use std::alloc::{AllocError, Global};
use ts_packet::Packet;

/// The PAT, on PID 0 (ISO/IEC 13818-1, 2.4.4.3).
const PAT: TableKind = TableKind {
    pid: 0,
    table_id: 0,
    indicator: Indicator::Pat,
    missing: Missing::Pat,
};

/// What is kept for the indicators of priority 1 (ETSI TR 101 290, 5.2.1): 1.3 to 1.6.
#[derive(Drop)]
pub struct FirstRows {
    pat: TableRow,
    counters: LastMets,
    pmts: PmtRow,
    components: PidRow,
}

impl FirstRows {
    ghost use Rattle.std.specs.Prelude.{◌≡◌, ◌∷◌, ◌++◌, [], ℕ, List, Option, IfOk, OnOk};
    ghost use Rattle.ts_packet.specs.declared.cell.Cell.{Cell};
    ghost use Rattle.ts_packet.specs.Cells.{Live, live_packets};
    ghost use Rattle.plug_psi.specs.ForceStands.{StandsFor};
    ghost use Rattle.monitor_keys.specs.Keys.{span_on};
    ghost use Rattle.monitor_priorities.specs.PriorityErrors.{first_errors};
    ghost use Rattle.monitor_priorities.specs.RowsStand.{HasFirst};

    /// No cell was met. A PID with sound or picture may be without a packet for so many units of the 27 MHz clock.
    pub fn new(alloc: Global, gap: u64) -> Result<FirstRows, AllocError>
        ensures { IfOk result (λ rows. (pcr_pid : Option ℕ) → HasFirst gap pcr_pid rows []) }
    {
        let limit = KeyLimit {
            units: PAT_LIMIT,
            tells_ends: true,
        };
        Ok(FirstRows {
            pat: TableRow::new(alloc, PAT, limit)?,
            counters: LastMets::new(alloc)?,
            pmts: PmtRow::new(alloc),
            components: PidRow::new(alloc, PidKind::Component, gap),
        })
    }

    /// The packet of a span, with the tables in force then. Its errors are told. After `AllocError` the rows are not to be used
    /// any more.
    pub fn meet(
        &mut self,
        span: &Span,
        packet: &Packet,
        force: &InForce,
        errors: &mut Vec<MonitorError>,
    ) -> Result<(), AllocError>
        ensures stands { OnOk result ((gap : ℕ) (pcr_pid : Option ℕ) (history : List Cell) (labels : ℕ) → HasFirst gap pcr_pid self.old history
            → span.now ≡ span_on pcr_pid history packet.now → StandsFor force.now (live_packets history ++ packet.now ∷ [])
            → HasFirst gap pcr_pid self.new (history ++ Live packet.now labels ∷ [])) }
        ensures tells { OnOk result ((gap : ℕ) (pcr_pid : Option ℕ) (history : List Cell) → HasFirst gap pcr_pid self.old history
            → span.now ≡ span_on pcr_pid history packet.now → StandsFor force.now (live_packets history ++ packet.now ∷ [])
            → errors.new.items ≡ errors.old.items ++ first_errors gap pcr_pid history packet.now) }
    {
        let at = span.at;
        self.pat.meet(span, packet, true, errors)?;
        let is_wrong = is_scrambled_pat(packet);
        tell_if(errors, is_wrong, at, Indicator::Pat, Detail::Scrambled)?;
        let counter = self.counters.meet(packet);
        tell_counter(errors, at, packet.pid(), counter)?;
        self.pmts.meet(span, packet, force, errors)?;
        self.components.meet(span, packet, force, errors)?;
        Ok(())
    }
}

// Tells what is wrong with a continuity counter, if anything is.
fn tell_counter(
    errors: &mut Vec<MonitorError>,
    at: u64,
    pid: u16,
    error: Option<CounterError>,
) -> Result<(), AllocError>
    ensures { OnOk result (errors.new.items ≡ errors.old.items ++ map (counter_error at pid) (option_to_list error)) }
{
    let detail = match error {
        Some(CounterError::Wrong(counter, wanted)) => Detail::Wrong(pid, counter, wanted),
        Some(CounterError::Repeated) => Detail::Repeated(pid),
        None => return Ok(()),
    };
    tell(errors, at, Indicator::Counter, detail)
}
