//! The row of a table that comes on a PID of its own.
ghost use Rattle.std.specs.Prelude.{◌≡◌, ◌++◌, ◌==◌, ◌&&◌, not, OnOk};
ghost use Rattle.ts_packet.specs.Header.{pid_of};
ghost use Rattle.monitor_keys.specs.Looks.{is_look};

use crate::table_kind::TableKind;
use crate::telling::{tell_gap, tell_tables};
use monitor_keys::{Key, KeyLimit, Span, a_packet_without_news_leaves_the_key};
use monitor_lines::MonitorError;
use monitor_tables::{SectionReader, has_table, strangers};
use std::alloc::{AllocError, Global};
use ts_demux::other_packets_change_nothing;
use ts_packet::{PID_COUNT, Packet};

/// What is kept of a table that has to come again and again on a PID of its own, on which no other may come: PAT, CAT, NIT, SDT
/// and TDT (ETSI TR 101 290, 5.2).
#[derive(Drop)]
pub(crate) struct TableRow {
    kind: TableKind,
    key: Key,
    reader: SectionReader,
    alloc: Global,
}

impl TableRow {
    ghost use Rattle.std.specs.Prelude.{◌≡◌, ◌<◌, ◌≤◌, ◌∷◌, ◌++◌, [], ℕ, List, IfOk, OnOk};
    ghost use Rattle.ts_packet.specs.declared.cell.Cell.{Cell};
    ghost use Rattle.ts_packet.specs.Cells.{Live};
    ghost use Rattle.monitor_keys.specs.Keys.{KeyRule, span_on};
    ghost use Rattle.monitor_priorities.specs.RowErrors.{table_errors};
    ghost use Rattle.monitor_priorities.specs.RowsStand.{IsTableRow, OccursAs};

    /// No cell was met.
    pub(crate) fn new(
        alloc: Global,
        kind: TableKind,
        limit: KeyLimit,
    ) -> Result<TableRow, AllocError>
        requires { kind.pid < PID_COUNT }
        ensures kind { IfOk result (λ row. row.kind ≡ kind) }
        ensures stands { IfOk result (λ row. (rule : KeyRule) → rule.from ≡ 0 → rule.limit ≡ limit → OccursAs kind rule
            → IsTableRow row rule []) }
    {
        Ok(TableRow {
            kind,
            key: Key::from(0, limit),
            reader: SectionReader::new(alloc, kind.pid)?,
            alloc,
        })
    }

    /// The packet of a span, with which the table is due or not. Its errors are told. After `AllocError` the row is not to be
    /// used any more.
    pub(crate) fn meet(
        &mut self,
        span: &Span,
        packet: &Packet,
        is_due: bool,
        errors: &mut Vec<MonitorError>,
    ) -> Result<(), AllocError>
        ensures kind { self.new.kind ≡ self.old.kind }
        ensures stands { OnOk result ((rule : KeyRule) (history : List Cell) (labels : ℕ) → IsTableRow self.old rule history
            → span.now ≡ span_on rule.pcr_pid history packet.now → is_due ≡ rule.is_due history packet.now
            → IsTableRow self.new rule (history ++ Live packet.now labels ∷ [])) }
        ensures tells { OnOk result ((rule : KeyRule) (history : List Cell) → IsTableRow self.old rule history
            → span.now ≡ span_on rule.pcr_pid history packet.now → is_due ≡ rule.is_due history packet.now
            → errors.new.items ≡ errors.old.items ++ table_errors self.old.kind rule history packet.now) }
    {
        if is_quiet(span, packet, self.kind.pid) {
            // Laws, which run nothing.
            other_packets_change_nothing();
            a_packet_without_news_leaves_the_key();
            return Ok(());
        }
        self.take(span, packet, is_due, errors)?;
        Ok(())
    }

    // The same for any packet; nearly all are on other PIDs and have no PCR that is read, and need not come here.
    #[inline(never)]
    fn take(
        &mut self,
        span: &Span,
        packet: &Packet,
        is_due: bool,
        errors: &mut Vec<MonitorError>,
    ) -> Result<(), AllocError>
        ensures kind { self.new.kind ≡ self.old.kind }
        ensures stands { OnOk result ((rule : KeyRule) (history : List Cell) (labels : ℕ) → IsTableRow self.old rule history
            → span.now ≡ span_on rule.pcr_pid history packet.now → is_due ≡ rule.is_due history packet.now
            → IsTableRow self.new rule (history ++ Live packet.now labels ∷ [])) }
        ensures tells { OnOk result ((rule : KeyRule) (history : List Cell) → IsTableRow self.old rule history
            → span.now ≡ span_on rule.pcr_pid history packet.now → is_due ≡ rule.is_due history packet.now
            → errors.new.items ≡ errors.old.items ++ table_errors self.old.kind rule history packet.now) }
    {
        let sections = self.reader.read(packet)?;
        let occurs = has_table(&sections, self.kind.table_id);
        let others = strangers(self.alloc, self.kind.pid, &sections)?;
        let gap = self.key.meet(span, occurs, is_due);
        tell_gap(errors, span.at, self.kind.indicator, self.kind.missing, gap)?;
        tell_tables(errors, span.at, self.kind.indicator, &others)?;
        Ok(())
    }
}

// Whether a packet is on another PID, and has no PCR that is read.
#[inline]
fn is_quiet(span: &Span, packet: &Packet, pid: u16) -> bool
    ensures { result ≡ (not (pid_of packet.now == pid) && not (is_look span.now)) }
{
    packet.pid() != pid && !span.is_look()
}
