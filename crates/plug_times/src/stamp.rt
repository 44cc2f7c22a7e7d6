//! What a packet tells of time.
ghost use Rattle.std.specs.Prelude.{◌≡◌, option_to_list};
ghost use Rattle.plug_clock.specs.StreamClock.{time_in};
ghost use Rattle.plug_times.specs.Stamps.{is_closed, is_empty, stamp_at, times_on, told_at};

use crate::pes_times::{PesTimes, times_in};
use plugin_notes::PacketNote;
use ts_packet::Packet;

/// The clock and the time stamps of a packet.
#[derive(Clone, Copy, PartialEq, Eq)]
pub struct Stamp {
    /// The position of the packet.
    pub at: u64,
    /// Its PID, 0 to 8191.
    pub pid: u16,
    /// Its PCR, in units of the 27 MHz clock; `None` where it has none.
    pub clock: Option<u64>,
    /// Its discontinuity_indicator.
    pub jumps: bool,
    /// The time stamps of the PES packet that begins in it.
    pub times: PesTimes,
}

impl Stamp {
    ghost use Rattle.std.specs.Prelude.{◌≡◌, option_to_list};
    ghost use Rattle.plug_times.specs.Stamps.{told_at};

    /// What the packet at a position tells; `None` where that is nothing.
    #[inline]
    pub fn of(at: u64, packet: &Packet) -> Option<Stamp>
        ensures { option_to_list result ≡ told_at at packet.now }
    {
        let stamp = stamp_at(at, packet);
        if is_empty(&stamp) {
            return None;
        }
        Some(stamp)
    }
}

// Whether nothing was told.
#[inline]
fn is_empty(stamp: &Stamp) -> bool
    ensures { result ≡ is_empty stamp.now }
{
    stamp.clock.is_none() && stamp.times.presentation.is_none()
}

// What the packet at a position tells.
#[inline]
fn stamp_at(at: u64, packet: &Packet) -> Stamp
    ensures { result ≡ stamp_at at packet.now }
{
    Stamp {
        at,
        pid: packet.pid(),
        clock: clock_on(packet),
        jumps: packet.discontinuity(),
        times: times_on(packet),
    }
}

// The PCR of a packet that came without errors.
#[inline]
fn clock_on(packet: &Packet) -> Option<u64>
    ensures { result ≡ time_in packet.now }
{
    if packet.error_indicator() {
        return None;
    }
    packet.pcr()
}

// The time stamps of the PES packet that begins in a packet.
#[inline]
fn times_on(packet: &Packet) -> PesTimes
    ensures { result ≡ times_on packet.now }
{
    if is_closed(packet) {
        return PesTimes::none();
    }
    times_in(packet.payload())
}

// Whether no time stamp can be read in the packet.
#[inline]
fn is_closed(packet: &Packet) -> bool
    ensures { result ≡ is_closed packet.now }
{
    packet.error_indicator() || packet.scrambling() != 0 || !packet.unit_start()
}

impl PacketNote for Stamp {
    ghost use Rattle.plug_times.specs.StampTexts.{place_of};

    ghost place = { place_of };

    fn at(&self) -> u64 {
        self.at
    }
}
