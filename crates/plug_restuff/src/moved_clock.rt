//! The PCR of a packet that leaves at another time than it came.
ghost use Rattle.std.specs.Prelude.{◌≡◌, ◌+◌, ◌*◌, ◌/◌, ◌^◌, ◌<◌, ◌≤◌};
ghost use Rattle.plug_clock.specs.StreamClock;
ghost use Rattle.plug_clock.specs.declared.limits.TheConstants.{CLOCK_PERIOD as PERIOD, PACKET_UNITS as UNITS};
ghost use Rattle.plug_restuff.specs.MovedClock;
ghost use Rattle.plug_restuff.specs.RestuffRule.{filled};
ghost use Rattle.plug_restuff.specs.declared.limits.TheConstants.{LEAST_RATE, MOST_RATE};

use crate::waiting::Waiting;
use plug_clock::{CLOCK_PERIOD, PACKET_UNITS};
use ts_packet::{Labelled, Packet};

/// A packet that waited since its cell, as it leaves in a slot.
pub(crate) fn moved_row(from: u64, to: u64, slot: u64, first: Waiting) -> Labelled
    requires from_least { LEAST_RATE ≤ from }
    requires from_most { from ≤ MOST_RATE }
    requires to_least { LEAST_RATE ≤ to }
    requires to_most { to ≤ MOST_RATE }
    ensures packet { result.packet ≡ MovedClock.moved_packet from to first.cell slot first.row.packet }
    ensures labels { result.labels ≡ first.row.labels }
{
    let mut row = first.row;
    if let Some(clock) = time_in(&row.packet) {
        row.packet
            .set_pcr(moved_clock(from, to, first.cell, slot, clock));
    }
    row
}

// The PCR of a packet without a transport error.
fn time_in(packet: &Packet) -> Option<u64>
    ensures { result ≡ StreamClock.time_in packet.now }
{
    if packet.error_indicator() {
        return None;
    }
    packet.pcr()
}

// The clock of a packet that came in a cell, as it leaves in a slot.
fn moved_clock(from: u64, to: u64, cell: u64, slot: u64, clock: u64) -> u64
    requires from_least { LEAST_RATE ≤ from }
    requires from_most { from ≤ MOST_RATE }
    requires to_least { LEAST_RATE ≤ to }
    requires to_most { to ≤ MOST_RATE }
    ensures is { result ≡ MovedClock.moved_clock from to cell slot clock }
    ensures range { result < PERIOD }
{
    let came = u128::from(cell) * u128::from(to);
    let leaves = u128::from(slot) * u128::from(from);
    let both = u128::from(from) * u128::from(to);
    let period = u128::from(CLOCK_PERIOD);
    if came <= leaves {
        let later = units_of(leaves - came, both, 0);
        return ((u128::from(clock) + later) % period) as u64;
    }
    let earlier = units_of(came - leaves, both, both - 1);
    ((u128::from(clock) + (period - earlier % period)) % period) as u64
}

// The units of the clock in a part of packet times, with `more` before the division. Parts of whole packet times are
// taken first: the product of all would not always fit.
fn units_of(parts: u128, divisor: u128, more: u128) -> u128
    requires fits { parts < 2 ^ 94 }
    requires least { 1000000 ≤ divisor }
    requires most { divisor ≤ 1000000000000000000 }
    requires below { more < divisor }
    ensures is { result ≡ (parts * UNITS + more) / divisor }
    ensures range { result < 2 ^ 112 }
{
    let units = u128::from(PACKET_UNITS);
    parts / divisor * units + (parts % divisor * units + more) / divisor
}
