//! Errors of presentation time stamps.
ghost use Rattle.std.specs.Prelude.{◌≡◌, ◌&&◌, ◌||◌, ◌++◌, ◌∷◌, [], IfOk, OnOk, filter, if◌then◌else◌, not};
ghost use Rattle.ts_packet.specs.Header.{pid_of};
ghost use Rattle.monitor_rows.specs.KeyRows.{has_number};
ghost use Rattle.monitor_tables.specs.TableIds as tables;
ghost use Rattle.monitor_services.specs.StampErrors as stamps;

use crate::limits::STAMP_LIMIT;
use crate::occurrences::{has_stamp, meet_if};
use crate::pid_kind::PidKind;
use crate::pid_numbers::pids_in_order;
use crate::row_kind::{RowKind, add_gaps};
use crate::tables_come::{is_idle, may_bring_tables};
use monitor_keys::{KeyLimit, Span};
use monitor_lines::MonitorError;
use monitor_rows::{KeyRow, a_packet_without_news_leaves_the_row};
use monitor_tables::is_scrambled;
use plug_psi::InForce;
use std::alloc::{AllocError, Global};
use ts_packet::Packet;

/// What is kept of the PIDs of components of sound or picture: which have had a time stamp since tables name them, and a key of
/// each of these. It takes memory where tables come, at the first time stamp of a PID, and for what is told.
#[derive(Drop)]
pub struct StampRow {
    keys: KeyRow,
    /// The PIDs of components, ascending.
    components: Vec<u32>,
    /// Those of them that have had a time stamp, ascending.
    started: Vec<u32>,
    alloc: Global,
}

impl StampRow {
    ghost use Rattle.std.specs.Prelude.{◌≡◌, ◌++◌, ◌∷◌, [], ℕ, List, Option, OnOk, filter, length};
    ghost use Rattle.ts_packet.specs.declared.cell.Cell.{Cell};
    ghost use Rattle.ts_packet.specs.Cells.{Live, live_packets};
    ghost use Rattle.plug_psi.specs.ForceStands.{StandsFor as Forced};
    ghost use Rattle.monitor_keys.specs.Keys.{span_on};
    ghost use Rattle.plugin_notes.specs.PidPackets.{numbers_below};
    ghost use Rattle.monitor_rows.specs.RowStands.{IsRow};
    ghost use Rattle.monitor_services.specs.StampErrors.{is_component, is_started, stamp_errors, stamp_rule};
    ghost use Rattle.monitor_services.specs.declared.limits.TheConstants.{PID_NUMBERS};
    ghost use Rattle.monitor_services.specs.RowStands.{HasStampRow, IsNamedWith};

    /// Before any cell: no PMT is in force.
    pub fn new(alloc: Global) -> StampRow
        ensures { (pcr_pid : Option ℕ) → HasStampRow pcr_pid result [] }
    {
        let limit = KeyLimit {
            units: STAMP_LIMIT,
            tells_ends: true,
        };
        StampRow {
            keys: KeyRow::new(alloc, limit),
            components: Vec::new(alloc),
            started: Vec::new(alloc),
            alloc,
        }
    }

    /// The packet of a span, which the tables in force have been fed already. Adds the errors that are known with it. After
    /// `AllocError` it is not to be used any more.
    pub fn meet(
        &mut self,
        span: &Span,
        packet: &Packet,
        force: &InForce,
        errors: &mut Vec<MonitorError>,
    ) -> Result<(), AllocError>
        ensures stands { OnOk result ((pcr_pid : Option ℕ) (history : List Cell) (labels : ℕ) → HasStampRow pcr_pid self.old history
            → span.now ≡ span_on pcr_pid history packet.now → Forced force.now (live_packets history ++ packet.now ∷ [])
            → HasStampRow pcr_pid self.new (history ++ Live packet.now labels ∷ [])) }
        ensures tells { OnOk result ((pcr_pid : Option ℕ) (history : List Cell) → HasStampRow pcr_pid self.old history
            → span.now ≡ span_on pcr_pid history packet.now → Forced force.now (live_packets history ++ packet.now ∷ [])
            → errors.new.items ≡ errors.old.items ++ stamp_errors pcr_pid history packet.now) }
    {
        let occurs = is_stamp(packet);
        if is_idle(span, packet, force, occurs) {
            // A law, which runs nothing.
            a_packet_without_news_leaves_the_row();
            return Ok(());
        }
        self.rename(span.at, packet, force)?;
        let gaps = meet_if(&mut self.keys, span, packet, occurs)?;
        add_gaps(errors, RowKind::Stamps, span.at, &gaps)?;
        Ok(())
    }

    // Names the PIDs that are waited for with the packet at a position.
    fn rename(&mut self, at: u64, packet: &Packet, force: &InForce) -> Result<(), AllocError>
        ensures { OnOk result ((pcr_pid : Option ℕ) (history : List Cell) (labels : ℕ) → HasStampRow pcr_pid self.old history
            → at ≡ length history → Forced force.now (live_packets history ++ packet.now ∷ [])
            → IsNamedWith pcr_pid self.new history packet.now labels) }
    {
        if may_bring_tables(packet, force) {
            self.components = pids_in_order(self.alloc, PidKind::Component, force)?;
            self.start(at, packet)?;
            return Ok(());
        }
        if is_first(packet, &self.components, &self.started) {
            self.start(at, packet)?;
        }
        Ok(())
    }

    // Names them, where the components are those of the tables in force with the packet.
    fn start(&mut self, at: u64, packet: &Packet) -> Result<(), AllocError>
        ensures { OnOk result ((pcr_pid : Option ℕ) (history : List Cell) (labels : ℕ) → IsRow (stamp_rule pcr_pid) self.old.keys history
            → at ≡ length history
            → self.old.started.items ≡ filter (is_started (live_packets history)) (numbers_below PID_NUMBERS)
            → self.old.components.items ≡ filter (is_component (live_packets history ++ packet.now ∷ [])) (numbers_below PID_NUMBERS)
            → IsNamedWith pcr_pid self.new history packet.now labels) }
    {
        self.started = started_with(self.alloc, &self.components, &self.started, packet)?;
        self.keys.rename(at, &self.started)?;
        Ok(())
    }
}

// Whether a packet counts as one with a time stamp: it has one, or is scrambled.
fn is_stamp(packet: &Packet) -> bool
    ensures { result ≡ (stamps.has_stamp packet.now || tables.is_scrambled packet.now) }
{
    has_stamp(packet) || is_scrambled(packet)
}

// Whether a packet has a time stamp, and its PID is that of a component and not waited for yet.
fn is_first(packet: &Packet, components: &[u32], started: &[u32]) -> bool
    ensures { result ≡ (stamps.has_stamp packet.now
        && (has_number components.now (pid_of packet.now) && not (has_number started.now (pid_of packet.now)))) }
{
    has_stamp(packet) && is_among(packet, components) && !is_among(packet, started)
}

// Whether the PID of a packet is among these.
fn is_among(packet: &Packet, pids: &[u32]) -> bool
    ensures { result ≡ has_number pids.now (pid_of packet.now) }
{
    pids.contains(&u32::from(packet.pid()))
}

// Those PIDs of components that were waited for, or have a time stamp with a packet.
fn started_with(
    alloc: Global,
    components: &[u32],
    started: &[u32],
    packet: &Packet,
) -> Result<Vec<u32>, AllocError>
    ensures { IfOk result (λ now. now.items ≡ filter (stamps.starts_in started.now packet.now) components.now) }
{
    let mut now = Vec::new(alloc);
    for pid in components {
        add_if(&mut now, *pid, starts_in(started, packet, *pid))?;
    }
    Ok(now)
}

// Whether a PID was waited for, or has a time stamp with a packet.
fn starts_in(started: &[u32], packet: &Packet, pid: u32) -> bool
    ensures { result ≡ stamps.starts_in started.now packet.now pid }
{
    started.contains(&pid) || (u32::from(packet.pid()) == pid && has_stamp(packet))
}

// Adds a PID, where it is to be.
fn add_if(pids: &mut Vec<u32>, pid: u32, is: bool) -> Result<(), AllocError>
    ensures { OnOk result (pids.new.items ≡ pids.old.items ++ (if is then pid ∷ [] else [])) }
{
    if is {
        pids.push(pid)?;
    }
    Ok(())
}
