//! Whether a packet has a time.

ghost use Rattle.std.specs.Prelude.{◌≡◌, ◌≤◌, length};
ghost use Rattle.ts_demux.specs.Cut.{size_in_front};
ghost use Rattle.plug_time.specs.HasTime as there;
ghost use Rattle.plug_time.specs.declared.numbers.TheConstants.{MOST_SECTIONS as ALL_SECTIONS};

use crate::moved_times::counts;
use crate::numbers::MOST_SECTIONS;
use crate::section::{is_tdt, is_tot, section_at, whole_at};
use ts_packet::Packet;

/// Whether a TDT, or a TOT with a right CRC, begins and ends in a packet.
#[tactic(auto, unfolding(crate::specs::HasTime::has_time))]
pub(crate) fn has_time(packet: &Packet) -> bool
    ensures { result ≡ there.has_time packet.now }
{
    if !counts(packet) || !packet.unit_start() {
        return false;
    }
    match packet.payload_start() {
        Some(start) => {
            let start = usize::from(start);
            let pointer = usize::from(packet.bytes()[start]);
            has_time_from(packet, start + 1 + pointer)
        }
        None => false,
    }
}

// Whether one of the sections tells a time that follow one another from a place on.
fn has_time_from(packet: &Packet, first: usize) -> bool
    requires { first ≤ 500 }
    ensures { result ≡ there.has_time_from ALL_SECTIONS first packet.now }
{
    let bytes = packet.bytes();
    let mut at = first;
    for _ in 0..MOST_SECTIONS {
        let Some(size) = whole_at(bytes, at) else {
            return false;
        };
        if tells_time(section_at(bytes, at, size)) {
            return true;
        }
        at += size;
    }
    false
}

// Whether a whole section is a TDT, or a TOT with a right CRC.
fn tells_time(section: &[u8]) -> bool
    requires { length section.now ≡ size_in_front section.now }
    ensures { result ≡ there.tells_time section.now }
{
    is_tdt(section) || is_tot(section)
}
