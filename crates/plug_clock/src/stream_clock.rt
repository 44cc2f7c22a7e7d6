//! The clock of a stream.
ghost use Rattle.std.specs.Prelude.{◌≡◌, ◌<◌, ◌-◌, ◌*◌, ◌^◌};
ghost use Rattle.plug_clock.specs.StreamClock.{is_joint, time_in, up_to_most};

use crate::clock_units::units_after;
use crate::last_clock::LastClock;
use crate::limits::{CLOCK_RATE, LONGEST_GAP, MOST_UNITS};
use ts_packet::Packet;

/// The clock of a stream, as the PCRs of the packets met tell it: the time since the first PCR that was read, in units of
/// the 27 MHz clock. It never goes back, and jumps at each PCR that is read. It allocates nothing.
///
/// The PCRs of one PID are read: the one that was asked for, or that of the first PCR. In the latter case another PID is
/// read from its PCR on, where the one before had none for two seconds at the mean of all steps or for 100,000
/// positions. PCRs of packets with the `transport_error_indicator` are not read.
///
/// From one PCR to the next the clock goes on by their difference, modulo the period of the clock. At a joint it goes on at
/// the mean of all steps before it: where the PID has changed, the packet has the `discontinuity_indicator`, or the
/// difference is 0 or more than a second.
#[derive(Clone, Copy)]
pub struct StreamClock {
    /// The PID whose PCRs are read, if there is one yet.
    pid: Option<u16>,
    /// This PID was asked for, so no other one is read.
    is_asked: bool,
    /// The last PCR that was read, if there was one.
    last: Option<LastClock>,
    /// The time, in units of the 27 MHz clock.
    time: u64,
    /// The units of all steps that are no joints.
    units: u64,
    /// The positions of all these steps.
    positions: u64,
}

impl StreamClock {
    ghost use Rattle.std.specs.Prelude.{◌≡◌, ◌<◌, ◌-◌, ◌^◌, ℕ, List, ◌++◌, ◌∷◌, [], IfSome, Option, Some, length};
    ghost use Rattle.ts_packet.specs.declared.cell.Cell.{Cell};
    ghost use Rattle.ts_packet.specs.declared.numbers.TheConstants.{PID_COUNT};
    ghost use Rattle.ts_packet.specs.Cells.{Live};
    ghost use Rattle.plug_clock.specs.StreamClock.{clock_after, clock_met, clock_start, clock_with, has_seconds, has_stopped, is_read, mean_units, milliseconds_of, moved, reads};

    /// The clock before any packet, which reads the PCRs of this PID alone where one is asked for.
    #[tactic(auto, unfolding(crate::specs::StreamClock::clock_after))]
    pub fn new(pid: Option<u64>) -> StreamClock
        requires { IfSome pid (λ p. p < PID_COUNT) }
        ensures is { result ≡ clock_start pid }
        ensures fresh { result ≡ clock_after pid [] }
    {
        let (pid, is_asked) = match pid {
            Some(pid) => (Some(pid as u16), true),
            None => (None, false),
        };
        StreamClock {
            pid,
            is_asked,
            last: None,
            time: 0,
            units: 0,
            positions: 0,
        }
    }

    /// The clock after a packet at a position.
    #[inline]
    pub fn after(&self, at: u64, packet: &Packet) -> StreamClock
        ensures is { result ≡ clock_met self.now at packet.now }
        ensures follows { (pid : Option ℕ) (history : List Cell) (labels : ℕ) → self.now ≡ clock_after pid history
            → length history ≡ at → result ≡ clock_after pid (history ++ Live packet.now labels ∷ []) }
    {
        self.after_packet(at, packet)
    }

    // The clock after a packet at a position, by its PCR.
    #[inline]
    #[tactic(auto, unfolding(crate::specs::StreamClock::clock_met))]
    fn after_packet(&self, at: u64, packet: &Packet) -> StreamClock
        ensures { result ≡ clock_met self.now at packet.now }
    {
        match time_in(packet) {
            Some(value) => self.after_value(at, packet, value),
            None => *self,
        }
    }

    // The clock after a packet at a position that has a PCR of this value.
    fn after_value(&self, at: u64, packet: &Packet, value: u64) -> StreamClock
        ensures { result ≡ clock_with self.now at packet.now (Some value) }
    {
        if !self.reads(at, packet.pid()) {
            return *self;
        }
        let moved = match self.last {
            Some(last) => self.moved(last, at, packet, value),
            None => *self,
        };
        StreamClock {
            pid: Some(packet.pid()),
            last: Some(LastClock { at, clock: value }),
            ..moved
        }
    }

    // Whether a PCR of this PID at a position is read.
    fn reads(&self, at: u64, pid: u16) -> bool
        ensures { result ≡ reads self.now at pid }
    {
        self.is_read(pid) || (!self.is_asked && self.has_stopped(at))
    }

    // Whether this PID is the one that is read.
    fn is_read(&self, pid: u16) -> bool
        ensures { result ≡ is_read self.now.pid pid }
    {
        match self.pid {
            Some(read) => read == pid,
            None => false,
        }
    }

    // Whether no PCR was read for too long before a position.
    fn has_stopped(&self, at: u64) -> bool
        ensures { result ≡ has_stopped self.now self.now.last at }
    {
        let Some(last) = self.last else {
            return true;
        };
        let positions = at.saturating_sub(last.at);
        let two_seconds = 2 * u128::from(CLOCK_RATE) * u128::from(self.positions);
        two_seconds < product(positions, self.units) || positions > LONGEST_GAP
    }

    // The clock after the step from the last PCR to one of this value, of a packet at a position.
    fn moved(&self, last: LastClock, at: u64, packet: &Packet, value: u64) -> StreamClock
        ensures { result ≡ moved self.now (Some last) at packet.now value }
    {
        let step = units_after(last.clock, value);
        let positions = at.saturating_sub(last.at);
        if is_joint(self.is_read(packet.pid()), packet.discontinuity(), step) {
            return StreamClock {
                time: up_to_most(u128::from(self.time) + self.mean_units(positions)),
                ..*self
            };
        }
        StreamClock {
            time: up_to_most(u128::from(self.time) + u128::from(step)),
            units: up_to_most(u128::from(self.units) + u128::from(step)),
            positions: up_to_most(u128::from(self.positions) + u128::from(positions)),
            ..*self
        }
    }

    // The units that so many positions take at the mean of all steps.
    fn mean_units(&self, positions: u64) -> u128
        ensures is { result ≡ mean_units self.now positions }
        ensures range { result < 2 ^ 128 - 2 ^ 64 }
    {
        if self.positions == 0 {
            return 0;
        }
        product(positions, self.units) / u128::from(self.positions)
    }

    /// The time since the first PCR that was read, in units of the 27 MHz clock, 0 to 2^62.
    #[inline]
    pub fn time(&self) -> u64
        ensures { result ≡ self.now.time }
    {
        self.time
    }

    /// The last PCR that was read; `None` before the first one.
    #[inline]
    pub fn last(&self) -> Option<LastClock>
        ensures { result ≡ self.now.last }
    {
        self.last
    }

    /// The time in whole milliseconds.
    pub fn milliseconds(&self) -> u64
        ensures { result ≡ milliseconds_of self.now.time }
    {
        (u128::from(self.time) * 1000 / u128::from(CLOCK_RATE)) as u64
    }

    /// Whether the time is so many seconds, or more.
    pub fn has_seconds(&self, seconds: u64) -> bool
        ensures { result ≡ has_seconds seconds self.now.time }
    {
        u128::from(seconds) * u128::from(CLOCK_RATE) <= u128::from(self.time)
    }
}

// The PCR of a packet, where it has one and no transport error.
fn time_in(packet: &Packet) -> Option<u64>
    ensures { result ≡ time_in packet.now }
{
    if packet.error_indicator() {
        return None;
    }
    packet.pcr()
}

// Whether a step of so many units is a joint.
fn is_joint(is_same: bool, flagged: bool, step: u64) -> bool
    ensures { result ≡ is_joint is_same flagged step }
{
    !is_same || flagged || step == 0 || step > CLOCK_RATE
}

// The product of two numbers, for which 128 bits are enough.
fn product(one: u64, other: u64) -> u128
    ensures is { result ≡ one * other }
    ensures range { result < 2 ^ 128 - 2 ^ 64 }
{
    u128::from(one) * u128::from(other)
}

// A number, or the greatest that is counted.
fn up_to_most(n: u128) -> u64
    ensures { result ≡ up_to_most n }
{
    if n <= u128::from(MOST_UNITS) {
        n as u64
    } else {
        MOST_UNITS
    }
}
