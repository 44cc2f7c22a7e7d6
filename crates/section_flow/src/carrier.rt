//! The packet that carries given bytes.

ghost use Rattle.std.specs.Prelude.{◌≡◌, ◌<◌, ◌≤◌, length, replicate};
ghost use Rattle.ts_packetize.specs.Packing.{filled};
ghost use Rattle.ts_packetize.specs.Packets.{packet_with};

use ts_packet::{NULL_PID, PAYLOAD_SIZE, Packet};

/// The size of a packet's header in bytes.
const HEADER: u8 = 4;

/// The packet with this counter that carries the bytes, at most 184, stuffed with 0xFF.
pub(crate) fn packet(pid: u16, counter: u8, unit_start: bool, bytes: &[u8]) -> Packet
    requires pid { pid < NULL_PID }
    requires counter { counter < 16 }
    requires room { length bytes.now ≤ PAYLOAD_SIZE }
    ensures { result ≡ packet_with pid counter (record { unit_start = unit_start; payload = filled bytes.now }) }
{
    let mut packet = blank(pid, counter, unit_start);
    packet.put_payload(HEADER, bytes);
    packet
}

/// The packet with this header and a payload of 0xFF alone, as a null packet has it.
fn blank(pid: u16, counter: u8, unit_start: bool) -> Packet
    requires pid { pid < NULL_PID }
    requires counter { counter < 16 }
    ensures { result ≡ packet_with pid counter (record { unit_start = unit_start; payload = replicate PAYLOAD_SIZE 0xFF }) }
{
    let mut packet = Packet::null();
    packet.set_pid(pid);
    packet.set_unit_start(unit_start);
    packet.set_counter(counter);
    packet
}
