//! The fault of a PCR after the last one on its PID.
ghost use Rattle.std.specs.Prelude.{◌≡◌, ◌≤◌, IfSome, option_to_list};
ghost use Rattle.plug_pcr.specs.LastClocks.{fault_after};

use crate::clock_fault::ClockFault;
use crate::jitter::jitter;
use plug_clock::LastClock;
use ts_packet::Packet;

/// The fault of the packet at a position with this PCR, if it is one, given the last PCR on its PID.
#[inline]
pub fn fault_behind(
    bitrate: u64,
    jitter_max: u64,
    at: u64,
    last: Option<LastClock>,
    packet: &Packet,
    clock: u64,
) -> Option<ClockFault>
    requires rate { 1 ≤ bitrate }
    requires earlier { IfSome last (λ before. before.at ≤ at) }
    ensures { option_to_list result ≡ fault_after bitrate jitter_max at last packet.now clock }
{
    let last = last?;
    if packet.discontinuity() {
        return None;
    }
    let jitter = jitter(bitrate, at - last.at, last.clock, clock);
    if jitter <= jitter_max {
        return None;
    }
    Some(ClockFault {
        at,
        pid: packet.pid(),
        jitter,
    })
}
