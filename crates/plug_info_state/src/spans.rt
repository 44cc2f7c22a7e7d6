//! The PCRs of all PIDs.
ghost use Rattle.std.specs.Prelude.{◌≡◌};
ghost use Rattle.plug_info_state.specs.ClockSpans.{wider_span};

use crate::clock_span::{ClockSpan, MetClock};
use std::alloc::{AllocError, Global};
use ts_packet::{PID_COUNT, Packet, PidRow};

/// What is kept of the PCRs on each PID.
#[derive(Drop)]
pub struct Spans {
    spans: PidRow<ClockSpan>,
}

impl Spans {
    ghost use Rattle.std.specs.Prelude.{◌≡◌, ◌<◌, ◌∷◌, ◌++◌, [], ℕ, List, IfOk, OnOk, Some, false, length, option_map};
    ghost use Rattle.ts_packet.specs.declared.cell.Cell.{Cell as GivenCell};
    ghost use Rattle.ts_packet.specs.declared.numbers.TheConstants.{PID_COUNT};
    ghost use Rattle.ts_packet.specs.Cells.{Live};
    ghost use Rattle.ts_packet.specs.Header.{error_indicator_of};
    ghost use Rattle.ts_packet.specs.Pcr.{pcr_of};
    ghost use Rattle.plug_info_state.specs.ClockSpans.{AreSpans, span_on};
    ghost use Rattle.plug_info_state.specs.PcrRate.{breaks_of, clock_pid, rate_of};

    /// No PCR yet on any PID. Allocates 384 KiB.
    pub fn new(alloc: Global) -> Result<Spans, AllocError>
        ensures { IfOk result (λ spans. AreSpans spans []) }
    {
        let none = ClockSpan {
            last: None,
            positions: 0,
            units: 0,
            breaks: 0,
        };
        Ok(Spans {
            spans: PidRow::filled(alloc, none)?,
        })
    }

    /// Processes the packet at a position.
    #[inline]
    pub fn meet(&mut self, at: u64, packet: &Packet) -> Result<(), AllocError>
        ensures { OnOk result ((cells : List GivenCell) → AreSpans self.old cells → length cells ≡ at → (labels : ℕ)
            → AreSpans self.new (cells ++ Live packet.now labels ∷ [])) }
    {
        match packet.pcr() {
            Some(clock) => self.keep(MetClock { at, clock }, packet),
            None => Ok(()),
        }
    }

    // Keeps the PCR of a packet, unless the packet is marked as damaged.
    fn keep(&mut self, met: MetClock, packet: &Packet) -> Result<(), AllocError>
        requires { Some met.clock ≡ pcr_of packet.now }
        ensures { OnOk result ((cells : List GivenCell) → AreSpans self.old cells → length cells ≡ met.at → (labels : ℕ)
            → AreSpans self.new (cells ++ Live packet.now labels ∷ [])) }
    {
        if packet.error_indicator() {
            return Ok(());
        }
        self.keep_sound(met, packet)?;
        Ok(())
    }

    // Keeps the PCR of a packet that is not marked as damaged.
    fn keep_sound(&mut self, met: MetClock, packet: &Packet) -> Result<(), AllocError>
        requires clock { Some met.clock ≡ pcr_of packet.now }
        requires sound { error_indicator_of packet.now ≡ false }
        ensures { OnOk result ((cells : List GivenCell) → AreSpans self.old cells → length cells ≡ met.at → (labels : ℕ)
            → AreSpans self.new (cells ++ Live packet.now labels ∷ [])) }
    {
        let pid = packet.pid();
        let kept = self.spans.get(pid);
        let Some(span) = kept.with(met, packet.discontinuity()) else {
            return Err(AllocError);
        };
        self.spans.set(pid, span);
        Ok(())
    }

    // What is kept of the PID whose spans cover the most positions, of equals the least; `None` without a span.
    fn widest(&self) -> Option<ClockSpan>
        ensures { (cells : List GivenCell) → AreSpans self.now cells → result ≡ option_map (span_on cells) (clock_pid cells) }
    {
        let mut widest = None;
        for pid in 0..PID_COUNT {
            widest = wider(widest, self.spans.get(pid));
        }
        widest
    }

    /// The bit rate, in bits per second, by the PCRs of the PID whose spans cover the most positions.
    pub fn rate(&self) -> Option<u64>
        ensures { (cells : List GivenCell) → AreSpans self.now cells → result ≡ rate_of cells }
    {
        match self.widest() {
            Some(span) => span.rate(),
            None => None,
        }
    }

    /// How many ways from one PCR of this PID to the next have no part in the rate; `None` without a PID.
    pub fn breaks(&self) -> Option<u64>
        ensures { (cells : List GivenCell) → AreSpans self.now cells → result ≡ breaks_of cells }
    {
        match self.widest() {
            Some(span) => Some(span.breaks),
            None => None,
        }
    }
}

// Of two the one that covers more positions, and of equals the first one.
fn wider(best: Option<ClockSpan>, span: ClockSpan) -> Option<ClockSpan>
    ensures { result ≡ wider_span best span }
{
    let covered = match best {
        Some(best) => best.positions,
        None => 0,
    };
    if covered < span.positions {
        Some(span)
    } else {
        best
    }
}
