//! Which packets are occurrences on their PID.
ghost use Rattle.std.specs.Prelude.{◌≡◌, ◌++◌, ◌∷◌, [], ℕ, List, IfOk, OnOk};
ghost use Rattle.ts_packet.specs.declared.cell.Cell.{Cell};
ghost use Rattle.ts_packet.specs.Cells.{Live};
ghost use Rattle.monitor_keys.specs.Keys.{span_on};
ghost use Rattle.monitor_rows.specs.KeyRows.{RowRule, row_gaps};
ghost use Rattle.monitor_rows.specs.RowStands.{AreOccurring, HasKeys, IsRow};
ghost use Rattle.monitor_services.specs.PidErrors as pids;
ghost use Rattle.monitor_services.specs.StampErrors as stamps;

use crate::pid_kind::PidKind;
use monitor_keys::Span;
use monitor_rows::{KeyRow, RowGap};
use plug_times::times_in;
use std::alloc::AllocError;
use ts_packet::Packet;

/// Whether a packet is one: it came without errors; and it has a PCR.
#[inline]
pub(crate) fn is_one(kind: PidKind, packet: &Packet) -> bool
    ensures { result ≡ pids.is_one kind packet.now }
{
    if packet.error_indicator() {
        return false;
    }
    match kind {
        PidKind::Component => true,
        PidKind::Clock => packet.pcr().is_some(),
    }
}

/// Whether a packet has a PTS (ISO/IEC 13818-1, 2.4.3.7).
#[inline]
pub(crate) fn has_stamp(packet: &Packet) -> bool
    ensures { result ≡ stamps.has_stamp packet.now }
{
    if packet.error_indicator() || packet.scrambling() != 0 || !packet.unit_start() {
        return false;
    }
    times_in(packet.payload()).presentation.is_some()
}

/// The keys of a row meet the packet of a span, on which that of its PID occurs or not. Gives the gaps that are told with it.
pub(crate) fn meet_if(
    keys: &mut KeyRow,
    span: &Span,
    packet: &Packet,
    occurs: bool,
) -> Result<Vec<RowGap>, AllocError>
    ensures stands { OnOk result ((rule : RowRule) (history : List Cell) (labels : ℕ)
        → HasKeys rule keys.old history (history ++ Live packet.now labels ∷ []) → span.now ≡ span_on rule.pcr_pid history packet.now
        → AreOccurring rule history packet.now (pids.pid_if occurs packet.now) → IsRow rule keys.new (history ++ Live packet.now labels ∷ [])) }
    ensures tells { IfOk result (λ told. (rule : RowRule) (history : List Cell) (labels : ℕ)
        → HasKeys rule keys.old history (history ++ Live packet.now labels ∷ []) → span.now ≡ span_on rule.pcr_pid history packet.now
        → AreOccurring rule history packet.now (pids.pid_if occurs packet.now) → told.items ≡ row_gaps rule history packet.now) }
{
    if occurs {
        keys.meet(span, &[u32::from(packet.pid())])
    } else {
        keys.meet(span, &[])
    }
}
