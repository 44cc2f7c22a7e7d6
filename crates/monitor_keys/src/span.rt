//! The time up to a packet.
ghost use Rattle.std.specs.Prelude.{◌≡◌, ◌<◌, ◌-◌, ◌*◌, ◌/◌, ◌^◌};

use plug_clock::{CLOCK_RATE, LastClock, StreamClock};
use ts_packet::Packet;

/// A packet with the stream's clock before and with it: where it has a PCR that is read, the time at each position from the
/// last such PCR up to the packet.
#[derive(Clone, Copy)]
pub struct Span {
    /// The clock before the packet.
    pub before: StreamClock,
    /// The position of the packet.
    pub at: u64,
    /// The clock with the packet.
    pub after: StreamClock,
}

impl Span {
    ghost use Rattle.std.specs.Prelude.{◌≡◌, ℕ, List, Option, length};
    ghost use Rattle.ts_packet.specs.declared.cell.Cell.{Cell};
    ghost use Rattle.plug_clock.specs.StreamClock.{clock_after, clock_met};
    ghost use Rattle.monitor_keys.specs.Keys.{span_on};
    ghost use Rattle.monitor_keys.specs.Looks.{is_guess, is_look, is_new, time_at, time_from};

    /// The packet at a position, before which the clock is this one.
    pub fn to(before: StreamClock, at: u64, packet: &Packet) -> Span
        ensures is { result ≡ record { before = before; at = at; after = clock_met before at packet.now } }
        ensures follows { (pid : Option ℕ) (history : List Cell) → before ≡ clock_after pid history → at ≡ length history
            → result ≡ span_on pid history packet.now }
    {
        Span {
            before,
            at,
            after: before.after(at, packet),
        }
    }

    /// Whether the packet has a PCR that is read: then keys are looked at.
    #[inline]
    pub fn is_look(&self) -> bool
        ensures { result ≡ is_look self.now }
    {
        match self.after.last() {
            Some(last) => last.at == self.at,
            None => false,
        }
    }

    /// Whether the time goes on by more than a second with the packet. Only a joint does so, and the time there is a guess.
    pub fn is_guess(&self) -> bool
        ensures { result ≡ is_guess self.now }
    {
        CLOCK_RATE < self.after.time().saturating_sub(self.before.time())
    }

    /// Whether a key that begins at this position begins behind the last PCR.
    pub fn is_new(&self, from: u64) -> bool
        ensures { result ≡ is_new self.now from }
    {
        match self.before.last() {
            Some(last) => last.at < from,
            None => true,
        }
    }

    /// The time at a position behind the last PCR, up to that of the packet, in units of the 27 MHz clock; 0 up to the
    /// first PCR.
    pub fn time_at(&self, n: u64) -> u128
        ensures { result ≡ time_at self.now n }
    {
        match self.before.last() {
            Some(last) => self.time_from(last, n),
            None => 0,
        }
    }

    // The time at a position behind this PCR.
    fn time_from(&self, last: LastClock, n: u64) -> u128
        ensures { result ≡ time_from self.now last n }
    {
        let units = self.after.time().saturating_sub(self.before.time());
        let positions = self.at.saturating_sub(last.at);
        u128::from(self.before.time()) + share(n.saturating_sub(last.at), units, positions)
    }
}

// So many parts of a number of units, of which the whole has so many; nothing of none.
fn share(parts: u64, units: u64, whole: u64) -> u128
    ensures is { result ≡ parts * units / whole }
    ensures range { result < 2 ^ 128 - 2 ^ 64 }
{
    let product = u128::from(parts) * u128::from(units);
    if whole == 0 {
        return 0;
    }
    product / u128::from(whole)
}
