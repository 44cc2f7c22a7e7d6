//! Errors of EITs present/following.
ghost use Rattle.std.specs.Prelude.{◌≡◌, ◌++◌, ◌∷◌, ◌==◌, ◌&&◌, [], ℕ, List, Option, OnOk, length, not};
ghost use Rattle.ts_packet.specs.declared.cell.Cell.{Cell};
ghost use Rattle.ts_packet.specs.Cells.{Live, live_packets};
ghost use Rattle.ts_packet.specs.Header.{pid_of};
ghost use Rattle.monitor_keys.specs.Looks.{is_look};
ghost use Rattle.monitor_services.specs.CurrentSdt.{HasFedSdt};
ghost use Rattle.monitor_rows.specs.RowStands.{HasKeys, IsRow};
ghost use Rattle.monitor_services.specs.EventErrors.{event_rule};

use crate::current_sdt::{CurrentSdt, SDT_PID};
use crate::event_numbers::{events_in_order, numbers_of_sections};
use crate::limits::EVENT_LIMIT;
use crate::row_kind::{RowKind, add_gaps};
use monitor_keys::{KeyLimit, Span};
use monitor_lines::MonitorError;
use monitor_rows::{KeyRow, a_packet_without_news_leaves_the_row};
use std::alloc::{AllocError, Global};
use ts_demux::{other_packets_complete_nothing, uncounted_packets_change_nothing};
use ts_packet::Packet;
use ts_section::Section;

/// What is kept of the EITs present/following that the SDT in force asks for: that SDT, and a key of each section. It takes
/// memory for an SDT, and for what is told.
#[derive(Drop)]
pub struct EventRow {
    keys: KeyRow,
    sdt: CurrentSdt,
    alloc: Global,
}

impl EventRow {
    ghost use Rattle.std.specs.Prelude.{◌≡◌, ◌++◌, ◌∷◌, [], ℕ, List, Option, IfOk, OnOk};
    ghost use Rattle.ts_packet.specs.declared.cell.Cell.{Cell};
    ghost use Rattle.ts_packet.specs.Cells.{Live, live_packets};
    ghost use Rattle.monitor_keys.specs.Keys.{span_on};
    ghost use Rattle.monitor_services.specs.EventErrors.{event_errors};
    ghost use Rattle.monitor_services.specs.RowStands.{HasEventRow};
    ghost use Rattle.monitor_tables.specs.TableIds.{sections_with};

    /// Before any cell: no SDT is in force.
    pub fn new(alloc: Global) -> Result<EventRow, AllocError>
        ensures { IfOk result (λ row. (pcr_pid : Option ℕ) → HasEventRow pcr_pid row []) }
    {
        let sdt = CurrentSdt::new(alloc)?;
        let limit = KeyLimit {
            units: EVENT_LIMIT,
            tells_ends: true,
        };
        Ok(EventRow {
            keys: KeyRow::new(alloc, limit),
            sdt,
            alloc,
        })
    }

    /// The packet of a span, with the sections that come with it on PID 18. Adds the errors that are known with it. After
    /// `AllocError` it is not to be used any more.
    pub fn meet(
        &mut self,
        span: &Span,
        packet: &Packet,
        sections: &[Section],
        errors: &mut Vec<MonitorError>,
    ) -> Result<(), AllocError>
        ensures stands { OnOk result ((pcr_pid : Option ℕ) (history : List Cell) (labels : ℕ) → HasEventRow pcr_pid self.old history
            → span.now ≡ span_on pcr_pid history packet.now → sections.now ≡ sections_with 18 (live_packets history) packet.now
            → HasEventRow pcr_pid self.new (history ++ Live packet.now labels ∷ [])) }
        ensures tells { OnOk result ((pcr_pid : Option ℕ) (history : List Cell) → HasEventRow pcr_pid self.old history
            → span.now ≡ span_on pcr_pid history packet.now → sections.now ≡ sections_with 18 (live_packets history) packet.now
            → errors.new.items ≡ errors.old.items ++ event_errors pcr_pid history packet.now) }
    {
        if is_idle(span, packet, sections) {
            // Laws, which run nothing.
            uncounted_packets_change_nothing();
            other_packets_complete_nothing();
            a_packet_without_news_leaves_the_row();
            return Ok(());
        }
        self.sdt.feed(span.at, packet)?;
        rename(self.alloc, &mut self.keys, span.at, packet, &self.sdt)?;
        let came = numbers_of_sections(self.alloc, sections)?;
        let gaps = self.keys.meet(span, &came)?;
        add_gaps(errors, RowKind::Events, span.at, &gaps)?;
        Ok(())
    }
}

// Whether the packet of a span has no PCR that is read, is not on the PID of the SDT, and completes no section of an EIT.
#[inline]
fn is_idle(span: &Span, packet: &Packet, sections: &[Section]) -> bool
    ensures { result ≡ (not (is_look span.now) && (not (pid_of packet.now == 17) && length sections.now == 0)) }
{
    !span.is_look() && packet.pid() != SDT_PID && sections.is_empty()
}

// Names the keys of the SDT in force, where one may have come with the packet at a position.
fn rename(
    alloc: Global,
    keys: &mut KeyRow,
    at: u64,
    packet: &Packet,
    sdt: &CurrentSdt,
) -> Result<(), AllocError>
    ensures { OnOk result ((pcr_pid : Option ℕ) (history : List Cell) (labels : ℕ) → IsRow (event_rule pcr_pid) keys.old history
        → at ≡ length history → HasFedSdt sdt.now (live_packets history ++ packet.now ∷ [])
        → HasKeys (event_rule pcr_pid) keys.new history (history ++ Live packet.now labels ∷ [])) }
{
    if packet.pid() != SDT_PID {
        return Ok(());
    }
    let numbers = events_in_order(alloc, sdt.sdt())?;
    keys.rename(at, &numbers)?;
    Ok(())
}
