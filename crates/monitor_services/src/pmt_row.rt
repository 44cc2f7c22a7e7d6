//! Errors of PMTs.
ghost use Rattle.std.specs.Prelude.{◌≡◌, ◌++◌, ◌∷◌, [], ℕ, List, Option, IfOk, OnOk, length};
ghost use Rattle.ts_packet.specs.declared.cell.Cell.{Cell};
ghost use Rattle.ts_packet.specs.Cells.{Live, live_packets};
ghost use Rattle.plug_psi.specs.ForceStands.{StandsFor as Forced};
ghost use Rattle.monitor_rows.specs.RowStands.{HasKeys, IsRow};
ghost use Rattle.monitor_services.specs.PmtErrors.{pmt_rule, pmts_come, scrambled_errors};
ghost use Rattle.monitor_services.specs.RowStands.{HaveRead};

use crate::limits::PMT_LIMIT;
use crate::pmt_numbers::{numbers_in_order, numbers_of_sections};
use crate::pmt_reader::PmtReader;
use crate::row_kind::{RowKind, add_gaps};
use crate::tables_come::{PAT_PID, is_idle};
use monitor_keys::{KeyLimit, Span};
use monitor_lines::{Detail, Indicator, MonitorError};
use monitor_rows::{KeyRow, a_packet_without_news_leaves_the_row};
use monitor_tables::is_scrambled;
use plug_psi::{ByPid, InForce, unfollowed_packets_change_nothing};
use std::alloc::{AllocError, Global};
use ts_packet::{NULL_PID, Packet};

/// What is kept of the PMTs of the services of the PAT in force: a key of each, and a reader of each PID that a service had. It
/// takes memory where a PAT comes into force, for a section, and for what is told.
#[derive(Drop)]
pub struct PmtRow {
    keys: KeyRow,
    readers: ByPid<PmtReader>,
    alloc: Global,
}

impl PmtRow {
    ghost use Rattle.std.specs.Prelude.{◌≡◌, ◌++◌, ◌∷◌, [], ℕ, List, Option, OnOk};
    ghost use Rattle.ts_packet.specs.declared.cell.Cell.{Cell};
    ghost use Rattle.ts_packet.specs.Cells.{Live, live_packets};
    ghost use Rattle.plug_psi.specs.ForceStands.{StandsFor as Forced};
    ghost use Rattle.monitor_keys.specs.Keys.{span_on};
    ghost use Rattle.monitor_services.specs.PmtErrors.{pmt_errors};
    ghost use Rattle.monitor_services.specs.RowStands.{HasPmtRow};

    /// Before any cell: no PAT is in force.
    pub fn new(alloc: Global) -> PmtRow
        ensures { (pcr_pid : Option ℕ) → HasPmtRow pcr_pid result [] }
    {
        PmtRow {
            keys: KeyRow::new(
                alloc,
                KeyLimit {
                    units: PMT_LIMIT,
                    tells_ends: true,
                },
            ),
            readers: ByPid::new(alloc),
            alloc,
        }
    }

    /// The packet of a span, which the tables in force have been fed already. Adds the errors that are known with it. After
    /// `AllocError` it is not to be used any more.
    pub fn meet(
        &mut self,
        span: &Span,
        packet: &Packet,
        force: &InForce,
        errors: &mut Vec<MonitorError>,
    ) -> Result<(), AllocError>
        ensures stands { OnOk result ((pcr_pid : Option ℕ) (history : List Cell) (labels : ℕ) → HasPmtRow pcr_pid self.old history
            → span.now ≡ span_on pcr_pid history packet.now → Forced force.now (live_packets history ++ packet.now ∷ [])
            → HasPmtRow pcr_pid self.new (history ++ Live packet.now labels ∷ [])) }
        ensures tells { OnOk result ((pcr_pid : Option ℕ) (history : List Cell) → HasPmtRow pcr_pid self.old history
            → span.now ≡ span_on pcr_pid history packet.now → Forced force.now (live_packets history ++ packet.now ∷ [])
            → errors.new.items ≡ errors.old.items ++ pmt_errors pcr_pid history packet.now) }
    {
        if is_idle(span, packet, force, false) {
            // Laws, which run nothing.
            unfollowed_packets_change_nothing::<PmtReader>();
            a_packet_without_news_leaves_the_row();
            return Ok(());
        }
        rename(self.alloc, &mut self.keys, span.at, packet, force)?;
        let came = read(self.alloc, &mut self.readers, span.at, packet, force)?;
        let gaps = self.keys.meet(span, &came)?;
        add_gaps(errors, RowKind::Pmts, span.at, &gaps)?;
        add_scrambled(errors, span.at, packet, force)?;
        Ok(())
    }
}

// Names the keys of the PAT in force, where one may have come with the packet at a position.
fn rename(
    alloc: Global,
    keys: &mut KeyRow,
    at: u64,
    packet: &Packet,
    force: &InForce,
) -> Result<(), AllocError>
    ensures { OnOk result ((pcr_pid : Option ℕ) (history : List Cell) (labels : ℕ) → IsRow (pmt_rule pcr_pid) keys.old history
        → at ≡ length history → Forced force.now (live_packets history ++ packet.now ∷ [])
        → HasKeys (pmt_rule pcr_pid) keys.new history (history ++ Live packet.now labels ∷ [])) }
{
    if packet.pid() != PAT_PID {
        return Ok(());
    }
    let numbers = numbers_in_order(alloc, force.pat())?;
    keys.rename(at, &numbers)?;
    Ok(())
}

// Reads a packet on the PID of a PMT. Gives the numbers of the PMTs of which sections come with it.
fn read(
    alloc: Global,
    readers: &mut ByPid<PmtReader>,
    at: u64,
    packet: &Packet,
    force: &InForce,
) -> Result<Vec<u32>, AllocError>
    ensures stands { OnOk result ((fed : List (List ℕ)) → HaveRead readers.old fed → Forced force.now (fed ++ packet.now ∷ [])
        → HaveRead readers.new (fed ++ packet.now ∷ [])) }
    ensures gives { IfOk result (λ came. (fed : List (List ℕ)) → HaveRead readers.old fed → Forced force.now (fed ++ packet.now ∷ [])
        → came.items ≡ pmts_come fed packet.now) }
{
    // A law, which runs nothing.
    unfollowed_packets_change_nothing::<PmtReader>();
    let pid = packet.pid();
    if pid == NULL_PID {
        return Ok(Vec::new(alloc));
    }
    if !force.follows(pid) {
        return Ok(Vec::new(alloc));
    }
    let came = readers.take(alloc, at, &(), (), packet)?;
    let numbers = numbers_of_sections(alloc, pid, &came.sections)?;
    Ok(numbers)
}

// Adds the error of a scrambled packet on the PID of a PMT.
fn add_scrambled(
    errors: &mut Vec<MonitorError>,
    at: u64,
    packet: &Packet,
    force: &InForce,
) -> Result<(), AllocError>
    ensures { OnOk result ((history : List Cell) → at ≡ length history → Forced force.now (live_packets history ++ packet.now ∷ [])
        → errors.new.items ≡ errors.old.items ++ scrambled_errors history packet.now) }
{
    let pid = packet.pid();
    if is_scrambled(packet) && force.follows(pid) {
        errors.push(MonitorError {
            known: at,
            at,
            indicator: Indicator::Pmt,
            detail: Detail::ScrambledOn(pid),
        })?;
    }
    Ok(())
}
