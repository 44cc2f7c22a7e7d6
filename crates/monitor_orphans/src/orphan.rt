//! What is met of a PID to which no table refers.
ghost use Rattle.std.specs.Prelude.{◌≡◌};
ghost use Rattle.monitor_orphans.specs.Orphans as orphans;

use crate::limits::LONGEST_WAIT;
use monitor_keys::Span;

/// What is met of a PID to which no table refers.
#[derive(Clone, Copy, PartialEq, Eq)]
pub enum Orphan {
    /// No packet since a table referred to it.
    Unmet,
    /// The first packet came at this position, behind the last PCR that the stream's clock read.
    Met(u64),
    /// It came at this time, in units of the 27 MHz clock.
    Since(u128),
    /// It was told.
    Told,
}

impl Orphan {
    /// With the packet of a span, which is on the PID or not; a table refers to the PID then or not.
    pub(crate) fn with(self, span: &Span, is_on: bool, is_referred: bool) -> Orphan
        ensures { result ≡ orphans.orphan_with span.now is_on is_referred self }
    {
        let met = self.met(span.at, is_on, is_referred);
        if !span.is_look() {
            return met;
        }
        if is_referred {
            return Orphan::Unmet;
        }
        met.looked(span)
    }

    /// Whether it is told with this packet.
    pub(crate) fn is_told_with(self, span: &Span, is_on: bool, is_referred: bool) -> bool
        ensures { result ≡ orphans.is_told_with span.now is_on is_referred self }
    {
        span.is_look() && !is_referred && self.met(span.at, is_on, is_referred).is_told(span)
    }

    // With the packet at a position.
    fn met(self, at: u64, is_on: bool, is_referred: bool) -> Orphan
        ensures { result ≡ orphans.met at is_on is_referred self }
    {
        if !is_on {
            return self;
        }
        if is_referred {
            return Orphan::Unmet;
        }
        match self {
            Orphan::Unmet => Orphan::Met(at),
            Orphan::Met(_) | Orphan::Since(_) | Orphan::Told => self,
        }
    }

    // With a PCR that is read.
    fn looked(self, span: &Span) -> Orphan
        ensures { result ≡ orphans.looked span.now self }
    {
        match self {
            Orphan::Met(n) => waited(span, span.time_at(n)),
            Orphan::Since(time) => waited(span, time),
            Orphan::Unmet | Orphan::Told => self,
        }
    }

    // Whether it is told with this PCR.
    fn is_told(self, span: &Span) -> bool
        ensures { result ≡ orphans.is_told span.now self }
    {
        match self {
            Orphan::Met(n) => is_late(span, span.time_at(n)),
            Orphan::Since(time) => is_late(span, time),
            Orphan::Unmet | Orphan::Told => false,
        }
    }
}

// What is met since a time, with a PCR that is read.
fn waited(span: &Span, since: u128) -> Orphan
    ensures { result ≡ orphans.waited span.now since }
{
    if span.is_guess() {
        return Orphan::Since(u128::from(span.after.time()));
    }
    if is_late(span, since) {
        return Orphan::Told;
    }
    Orphan::Since(since)
}

// Whether the PCR is too long after a time.
fn is_late(span: &Span, since: u128) -> bool
    ensures { result ≡ orphans.is_late span.now since }
{
    !span.is_guess()
        && u128::from(LONGEST_WAIT) < u128::from(span.after.time()).saturating_sub(since)
}
