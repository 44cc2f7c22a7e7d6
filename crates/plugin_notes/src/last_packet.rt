//! The last packet on a PID, as kept for its continuity counter.
ghost use Rattle.std.specs.Prelude.{◌≡◌, ◌<◌, Some, option_to_list};
ghost use Rattle.ts_packet.specs.Header.{counter_of, has_payload_of};
ghost use Rattle.plugin_notes.specs.LastSeen.{repeats, wanted_after, is_wrong, fault_after, right_after, seen_with, HasCounters};

use crate::continuity_error::ContinuityError;
use ts_packet::Packet;

/// Continuity counters are below this number.
const COUNTER_BOUND: u8 = 16;

/// What is kept of the last packet on a PID.
#[derive(Clone, Copy, PartialEq, Eq)]
pub struct LastPacket {
    /// Its continuity counter as received, 0 to 15.
    pub counter: u8,
    /// Whether it has a payload.
    pub has_payload: bool,
    /// Its correct counter, 0 to 15.
    pub right: u8,
}

impl LastPacket {
    // Whether the packet is a duplicate of the last one.
    #[inline]
    fn is_repeated_by(&self, packet: &Packet) -> bool
        ensures { result ≡ repeats self.now packet.now }
    {
        self.has_payload
            && packet.has_payload()
            && packet.counter() == self.counter
            && !packet.discontinuity()
    }

    // The expected counter of the next packet.
    #[inline]
    fn wanted(&self, packet: &Packet) -> u8
        requires { self.now.counter < 16 }
        ensures { result ≡ wanted_after self.now packet.now }
    {
        if packet.has_payload() {
            (self.counter + 1) % COUNTER_BOUND
        } else {
            self.counter
        }
    }

    // Whether the counter of the next packet is a fault.
    #[inline]
    fn is_wrong(&self, packet: &Packet) -> bool
        requires { self.now.counter < 16 }
        ensures { result ≡ is_wrong self.now packet.now }
    {
        packet.counter() != self.wanted(packet)
            && !self.is_repeated_by(packet)
            && !packet.discontinuity()
    }

    // The correct counter of the next packet.
    #[inline]
    fn right_counter(&self, packet: &Packet) -> u8
        requires { self.now.right < 16 }
        ensures { result ≡ right_after (Some self.now) packet.now }
    {
        if packet.has_payload() && !self.is_repeated_by(packet) {
            (self.right + 1) % COUNTER_BOUND
        } else {
            self.right
        }
    }
}

/// What is kept after one more packet.
#[inline]
pub fn seen_with(seen: Option<LastPacket>, packet: &Packet) -> LastPacket
    requires { HasCounters seen }
    ensures with { result ≡ seen_with seen packet.now }
    ensures range { result.right < 16 }
    ensures counter { counter_of packet.now < 16 }
{
    LastPacket {
        counter: packet.counter(),
        has_payload: packet.has_payload(),
        right: right_counter(seen, packet),
    }
}

// The correct counter of a packet: its own, if it is the first on its PID.
#[inline]
fn right_counter(seen: Option<LastPacket>, packet: &Packet) -> u8
    requires { HasCounters seen }
    ensures right { result ≡ right_after seen packet.now }
    ensures range { result < 16 }
{
    match seen {
        Some(seen) => seen.right_counter(packet),
        None => packet.counter(),
    }
}

/// The continuity error of the packet at a position, if it has one, after what is kept of the last packet on its PID.
#[inline]
pub fn fault_behind(at: u64, seen: Option<LastPacket>, packet: &Packet) -> Option<ContinuityError>
    requires { HasCounters seen }
    ensures { option_to_list result ≡ fault_after at seen packet.now }
{
    let seen = seen?;
    if !seen.is_wrong(packet) {
        return None;
    }
    Some(ContinuityError {
        at,
        pid: packet.pid(),
        counter: packet.counter(),
        wanted: seen.wanted(packet),
    })
}
