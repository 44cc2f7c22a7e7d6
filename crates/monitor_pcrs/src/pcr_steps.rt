//! The last PCR on each PID.
ghost use Rattle.std.specs.Prelude.{◌≡◌};
ghost use Rattle.plug_clock.specs.StreamClock.{time_in};
ghost use Rattle.monitor_pcrs.specs.PcrErrors as errors;

use crate::pcr_error::PcrError;
use crate::step::error_between;
use plug_clock::LastClock;
use std::alloc::{AllocError, Global};
use ts_packet::{PID_COUNT, Packet, PidRow};

/// The last PCR on each PID, if there was one, and the bit rate of the stream, if one is given. It takes all its memory when it
/// is made.
#[derive(Drop)]
pub struct PcrSteps {
    bitrate: Option<u64>,
    clocks: PidRow<Option<LastClock>>,
}

impl PcrSteps {
    ghost use Rattle.std.specs.Prelude.{◌≡◌, ◌<◌, ◌∷◌, ◌++◌, [], ℕ, List, IfOk, None, length};
    ghost use Rattle.std.specs.List.{slice_index_or};
    ghost use Rattle.ts_packet.specs.declared.cell.Cell.{Cell};
    ghost use Rattle.ts_packet.specs.Cells.{Live};
    ghost use Rattle.monitor_pcrs.specs.LastPcrs.{HasRate, Remembers};
    ghost use Rattle.monitor_pcrs.specs.PcrErrors.{pcr_error_on};

    /// No PCR yet on any PID. Allocates 192 KiB.
    pub fn new(alloc: Global, bitrate: Option<u64>) -> Result<PcrSteps, AllocError>
        requires { HasRate bitrate }
        ensures fresh { IfOk result (λ steps. Remembers steps []) }
        ensures rate { IfOk result (λ steps. steps.bitrate ≡ bitrate) }
    {
        Ok(PcrSteps {
            bitrate,
            clocks: PidRow::filled(alloc, None)?,
        })
    }

    /// The packet at a position. Gives what is wrong with its PCR after the one before on its PID, if anything is.
    pub fn meet(&mut self, at: u64, packet: &Packet) -> Option<PcrError>
        requires { HasRate self.old.bitrate }
        ensures tells { (history : List Cell) → Remembers self.old history → length history ≡ at
            → result ≡ pcr_error_on self.old.bitrate history packet.now }
        ensures stands { (history : List Cell) (labels : ℕ) → Remembers self.old history → length history ≡ at
            → Remembers self.new (history ++ Live packet.now labels ∷ []) }
        ensures rate { self.new.bitrate ≡ self.old.bitrate }
    {
        let clock = clock_at(at, packet)?;
        let error = error_between(self.bitrate, self.on(packet.pid()), packet, clock);
        self.clocks.set(packet.pid(), Some(clock));
        error
    }

    // The last PCR on a PID.
    fn on(&self, pid: u16) -> Option<LastClock>
        requires { pid < PID_COUNT }
        ensures { result ≡ slice_index_or self.now.clocks pid None }
    {
        self.clocks.get(pid)
    }
}

// The PCR of a packet at a position, where it has one and its transport_error_indicator is not set.
fn clock_at(at: u64, packet: &Packet) -> Option<LastClock>
    ensures { result ≡ errors.clock_at at (time_in packet.now) }
{
    if packet.error_indicator() {
        return None;
    }
    let clock = packet.pcr()?;
    Some(LastClock { at, clock })
}
