//! Errors on PIDs that the PMTs in force name.
ghost use Rattle.std.specs.Prelude.{◌≡◌, ◌++◌, ◌∷◌, [], ℕ, List, Option, IfOk, OnOk, length};
ghost use Rattle.ts_packet.specs.declared.cell.Cell.{Cell};
ghost use Rattle.ts_packet.specs.Cells.{Live, live_packets};
ghost use Rattle.plug_psi.specs.ForceStands.{StandsFor as Forced};
ghost use Rattle.monitor_keys.specs.Keys.{span_on};
ghost use Rattle.monitor_rows.specs.KeyRows.{row_gaps};
ghost use Rattle.monitor_rows.specs.RowStands.{HasKeys, IsRow};
ghost use Rattle.monitor_services.specs.PidErrors.{pid_rule, row_kind, tells_ends};

use crate::occurrences::{is_one, meet_if};
use crate::pid_kind::PidKind;
use crate::pid_numbers::pids_in_order;
use crate::row_kind::{RowKind, add_gaps};
use crate::tables_come::{is_idle, may_bring_tables};
use monitor_keys::{KeyLimit, Span};
use monitor_lines::MonitorError;
use monitor_rows::{KeyRow, a_packet_without_news_leaves_the_row};
use plug_psi::InForce;
use std::alloc::{AllocError, Global};
use ts_packet::Packet;

/// What is kept of the PIDs that the PMTs in force name of one kind: a key of each. It takes memory where tables come, and for
/// what is told.
#[derive(Drop)]
pub struct PidRow {
    kind: PidKind,
    keys: KeyRow,
    alloc: Global,
}

impl PidRow {
    ghost use Rattle.std.specs.Prelude.{◌≡◌, ◌++◌, ◌∷◌, [], ℕ, List, Option, OnOk};
    ghost use Rattle.ts_packet.specs.declared.cell.Cell.{Cell};
    ghost use Rattle.ts_packet.specs.Cells.{Live, live_packets};
    ghost use Rattle.plug_psi.specs.ForceStands.{StandsFor as Forced};
    ghost use Rattle.monitor_keys.specs.Keys.{span_on};
    ghost use Rattle.monitor_services.specs.PidErrors.{pid_errors};
    ghost use Rattle.monitor_services.specs.RowStands.{HasPidRow};
    ghost use Rattle.monitor_services.specs.declared.pid_kind.PidKind.{PidKind as Kind};

    /// Before any cell: no PMT is in force. The limit is in units of the 27 MHz clock.
    pub fn new(alloc: Global, kind: PidKind, units: u64) -> PidRow
        ensures { (pcr_pid : Option ℕ) → HasPidRow kind units pcr_pid result [] }
    {
        PidRow {
            kind,
            keys: KeyRow::new(
                alloc,
                KeyLimit {
                    units,
                    tells_ends: tells_ends(kind),
                },
            ),
            alloc,
        }
    }

    /// The packet of a span, which the tables in force have been fed already. Adds the errors that are known with it. After
    /// `AllocError` it is not to be used any more.
    pub fn meet(
        &mut self,
        span: &Span,
        packet: &Packet,
        force: &InForce,
        errors: &mut Vec<MonitorError>,
    ) -> Result<(), AllocError>
        ensures stands { OnOk result ((kind : Kind) (units : ℕ) (pcr_pid : Option ℕ) (history : List Cell) (labels : ℕ)
            → HasPidRow kind units pcr_pid self.old history → span.now ≡ span_on pcr_pid history packet.now
            → Forced force.now (live_packets history ++ packet.now ∷ [])
            → HasPidRow kind units pcr_pid self.new (history ++ Live packet.now labels ∷ [])) }
        ensures tells { OnOk result ((kind : Kind) (units : ℕ) (pcr_pid : Option ℕ) (history : List Cell)
            → HasPidRow kind units pcr_pid self.old history → span.now ≡ span_on pcr_pid history packet.now
            → Forced force.now (live_packets history ++ packet.now ∷ [])
            → errors.new.items ≡ errors.old.items ++ pid_errors kind units pcr_pid history packet.now) }
    {
        let occurs = is_one(self.kind, packet);
        if is_idle(span, packet, force, occurs) {
            // A law, which runs nothing.
            a_packet_without_news_leaves_the_row();
            return Ok(());
        }
        rename(
            self.alloc,
            &mut self.keys,
            self.kind,
            span.at,
            packet,
            force,
        )?;
        let gaps = meet_if(&mut self.keys, span, packet, occurs)?;
        add_gaps(errors, kind_of_row(self.kind), span.at, &gaps)?;
        Ok(())
    }
}

// Whether the end of a gap is told.
fn tells_ends(kind: PidKind) -> bool
    ensures { result ≡ tells_ends kind }
{
    match kind {
        PidKind::Component => true,
        PidKind::Clock => false,
    }
}

// The row of a kind.
fn kind_of_row(kind: PidKind) -> RowKind
    ensures { result ≡ row_kind kind }
{
    match kind {
        PidKind::Component => RowKind::Packets,
        PidKind::Clock => RowKind::Clocks,
    }
}

// Names the PIDs of the PMTs in force, where tables may have come into force with the packet at a position.
fn rename(
    alloc: Global,
    keys: &mut KeyRow,
    kind: PidKind,
    at: u64,
    packet: &Packet,
    force: &InForce,
) -> Result<(), AllocError>
    ensures { OnOk result ((units : ℕ) (pcr_pid : Option ℕ) (history : List Cell) (labels : ℕ) → IsRow (pid_rule kind units pcr_pid) keys.old history
        → at ≡ length history → Forced force.now (live_packets history ++ packet.now ∷ [])
        → HasKeys (pid_rule kind units pcr_pid) keys.new history (history ++ Live packet.now labels ∷ [])) }
{
    if !may_bring_tables(packet, force) {
        return Ok(());
    }
    let numbers = pids_in_order(alloc, kind, force)?;
    keys.rename(at, &numbers)?;
    Ok(())
}
