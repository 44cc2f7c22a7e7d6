//! The rows of priority 2.
ghost use Rattle.std.specs.Prelude.{◌≡◌, ◌++◌, OnOk, option_to_list, map};
ghost use Rattle.monitor_priorities.specs.RowErrors.{pcr_error};

use crate::crc_row::CrcRow;
use crate::table_kind::TableKind;
use crate::table_row::TableRow;
use crate::telling::{tell, tell_if};
use monitor_keys::{KeyLimit, SinceLook, Span};
use monitor_lines::{Detail, Indicator, Missing, MonitorError};
use monitor_pcrs::{PcrError, PcrSteps};
use monitor_services::{CLOCK_LIMIT, PidKind, PidRow, StampRow};
use monitor_tables::{CAT_LIMIT, is_scrambled};
use plug_psi::InForce;
use std::alloc::{AllocError, Global};
use ts_packet::Packet;

/// The CAT, on PID 1 (ISO/IEC 13818-1, 2.4.4.6).
const CAT: TableKind = TableKind {
    pid: 1,
    table_id: 1,
    indicator: Indicator::Cat,
    missing: Missing::Cat,
};

/// What is kept for the indicators of priority 2 (ETSI TR 101 290, 5.2.2): 2.1 to 2.6.
#[derive(Drop)]
pub struct SecondRows {
    crcs: CrcRow,
    clocks: PidRow,
    steps: PcrSteps,
    stamps: StampRow,
    /// Whether there was a scrambled packet since the last PCR.
    scrambled: SinceLook,
    cat: TableRow,
}

impl SecondRows {
    ghost use Rattle.std.specs.Prelude.{◌≡◌, ◌∷◌, ◌++◌, [], ℕ, List, Option, IfOk, OnOk};
    ghost use Rattle.ts_packet.specs.declared.cell.Cell.{Cell};
    ghost use Rattle.ts_packet.specs.Cells.{Live, live_packets};
    ghost use Rattle.plug_psi.specs.ForceStands.{StandsFor};
    ghost use Rattle.monitor_keys.specs.Keys.{span_on};
    ghost use Rattle.monitor_priorities.specs.PriorityErrors.{second_errors};
    ghost use Rattle.monitor_pcrs.specs.LastPcrs.{HasRate};
    ghost use Rattle.monitor_priorities.specs.RowsStand.{HasSecond, MeetsSecond};

    /// No cell was met. The rate is that of the stream, in bits per second; without it 2.4 is not looked at.
    pub fn new(alloc: Global, bitrate: Option<u64>) -> Result<SecondRows, AllocError>
        requires { HasRate bitrate }
        ensures { IfOk result (λ rows. (pcr_pid : Option ℕ) → HasSecond bitrate pcr_pid rows []) }
    {
        let limit = KeyLimit {
            units: CAT_LIMIT,
            tells_ends: false,
        };
        Ok(SecondRows {
            cat: TableRow::new(alloc, CAT, limit)?,
            steps: PcrSteps::new(alloc, bitrate)?,
            crcs: CrcRow::new(alloc),
            clocks: PidRow::new(alloc, PidKind::Clock, CLOCK_LIMIT),
            stamps: StampRow::new(alloc),
            scrambled: SinceLook::new(),
        })
    }

    /// The packet of a span, with the tables in force then. Its errors are told. After `AllocError` the rows are not to be used
    /// any more.
    pub fn meet(
        &mut self,
        span: &Span,
        packet: &Packet,
        force: &InForce,
        errors: &mut Vec<MonitorError>,
    ) -> Result<(), AllocError>
        requires { MeetsSecond self.old }
        ensures stands { OnOk result ((bitrate pcr_pid : Option ℕ) (history : List Cell) (labels : ℕ) → HasSecond bitrate pcr_pid self.old history
            → span.now ≡ span_on pcr_pid history packet.now → StandsFor force.now (live_packets history ++ packet.now ∷ [])
            → HasSecond bitrate pcr_pid self.new (history ++ Live packet.now labels ∷ [])) }
        ensures tells { OnOk result ((bitrate pcr_pid : Option ℕ) (history : List Cell) → HasSecond bitrate pcr_pid self.old history
            → span.now ≡ span_on pcr_pid history packet.now → StandsFor force.now (live_packets history ++ packet.now ∷ [])
            → errors.new.items ≡ errors.old.items ++ second_errors bitrate pcr_pid history packet.now) }
    {
        let (at, pid) = (span.at, packet.pid());
        let is_error = packet.error_indicator();
        tell_if(
            errors,
            is_error,
            at,
            Indicator::Transport,
            Detail::OnPid(pid),
        )?;
        self.crcs.meet(at, packet, force, errors)?;
        self.clocks.meet(span, packet, force, errors)?;
        let step = self.steps.meet(at, packet);
        tell_step(errors, at, pid, step)?;
        self.stamps.meet(span, packet, force, errors)?;
        let is_one = is_scrambled(packet);
        let is_due = self.scrambled.meet(span, is_one);
        self.cat.meet(span, packet, is_due, errors)?;
        Ok(())
    }
}

// Tells what is wrong with the step to a PCR, if anything is.
fn tell_step(
    errors: &mut Vec<MonitorError>,
    at: u64,
    pid: u16,
    error: Option<PcrError>,
) -> Result<(), AllocError>
    ensures { OnOk result (errors.new.items ≡ errors.old.items ++ map (pcr_error at pid) (option_to_list error)) }
{
    match error {
        Some(PcrError::Step(units)) => tell(errors, at, Indicator::Pcr, Detail::Step(pid, units)),
        Some(PcrError::Accuracy(off)) => tell(
            errors,
            at,
            Indicator::Accuracy,
            Detail::Off(pid, off),
        ),
        None => Ok(()),
    }
}
