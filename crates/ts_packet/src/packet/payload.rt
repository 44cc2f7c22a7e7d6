//! The payload of ISO/IEC 13818-1, 2.4.3.3.
ghost use Rattle.std.specs.Prelude.{◌≡◌, ◌+◌, ◌≤◌, length, IfSome};
ghost use Rattle.ts_packet.specs.Packet.{IsPacket};
ghost use Rattle.ts_packet.specs.Payload.{payload_start_of, payload_of, with_piece};

use super::Packet;
use crate::numbers::{PACKET_SIZE, PAYLOAD_SIZE};

impl Packet {
    /// The place of the first payload byte, 4 to 187: 4 without an adaptation field, 5 plus the field's length
    /// with a valid one; else none.
    #[tactic(auto, unfolding(crate::specs::Adaptation::adaptation_length_of, crate::specs::Payload::payload_start_of))]
    pub fn payload_start(&self) -> Option<u8>
        ensures place { result ≡ payload_start_of self.now }
        ensures least { IfSome result (λ place. 4 ≤ place) }
        ensures most { IfSome result (λ place. place ≤ 187) }
    {
        match self.adaptation_control() {
            1 => Some(4),
            3 => self.adaptation_length().map(|length| 5 + length),
            _ => None,
        }
    }

    /// The payload bytes, from `payload_start` on; empty where there is no payload.
    #[tactic(auto, unfolding(crate::specs::Payload::payload_of))]
    pub fn payload(&self) -> &[u8]
        ensures bytes { result.now ≡ payload_of self.now }
        ensures size { length result.now ≤ PAYLOAD_SIZE }
    {
        match self.payload_start() {
            Some(start) => &self.row[usize::from(start)..],
            None => &[],
        }
    }

    /// Copies a piece over the packet's bytes from `at` on; the header is never reached.
    pub fn put_payload(&mut self, at: u8, piece: &[u8])
        requires after_header { 4 ≤ at }
        requires fits { at + length piece.now ≤ PACKET_SIZE }
        ensures bytes { self.new ≡ with_piece self.old at piece.now }
        ensures packet { IsPacket self.new }
    {
        self.write_bytes(usize::from(at), piece);
    }
}
