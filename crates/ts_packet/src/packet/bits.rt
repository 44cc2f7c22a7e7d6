//! Writes to bits and bytes of a packet; none of them reaches the sync byte.
ghost use Rattle.std.specs.Prelude.{◌≡◌, ◌+◌, ◌*◌, ◌^◌, ◌<◌, ◌≤◌, length, slice_set};
ghost use Rattle.ts_bit_rows.specs.BitRow.{SetsField};
ghost use Rattle.ts_packet.specs.Header.{byte_with, row_with};
ghost use Rattle.ts_packet.specs.Packet.{IsPacket};
ghost use Rattle.ts_packet.specs.Payload.{with_piece};

use super::Packet;
use crate::numbers::PACKET_SIZE;

/// The byte with its `count` bits from place `first` on, highest first, replaced by `value`.
#[inline]
fn with_bits(byte: u8, first: u32, count: u32, value: u8) -> u8
    requires inside { first + count ≤ 8 }
    requires fits { value < 2 ^ count }
    ensures exact { result ≡ byte_with byte first count value }
    ensures range { result < 256 }
{
    let low = 8 - first - count;
    let old = u32::from(byte);
    let high = old >> (8 - first) << count | u32::from(value);
    (high << low | old & ((1 << low) - 1)) as u8
}

impl Packet {
    /// Replaces `count` bits of the byte at `place`, from its bit `first` on, counted from the highest.
    #[inline]
    pub(super) fn write_bits(&mut self, place: usize, first: u32, count: u32, value: u8)
        requires after_sync { 0 < place }
        requires place_fits { place < PACKET_SIZE }
        requires inside { first + count ≤ 8 }
        requires fits { value < 2 ^ count }
        ensures row { self.new ≡ row_with self.old place first count value }
        ensures field { SetsField self.old self.new (8 * place + first) count value }
        ensures packet { IsPacket self.new }
    {
        self.row[place] = with_bits(self.row[place], first, count, value);
    }

    /// Replaces the byte at `place`.
    #[inline]
    pub(super) fn write_byte(&mut self, place: usize, value: u8)
        requires after_sync { 0 < place }
        requires place_fits { place < PACKET_SIZE }
        ensures row { self.new ≡ slice_set self.old place value }
        ensures field { SetsField self.old self.new (8 * place) 8 value }
        ensures packet { IsPacket self.new }
    {
        self.row[place] = value;
    }

    /// Copies a piece over the bytes from `at` on.
    #[inline]
    pub(super) fn write_bytes(&mut self, at: usize, piece: &[u8])
        requires after_sync { 0 < at }
        requires fits { at + length piece.now ≤ PACKET_SIZE }
        ensures row { self.new ≡ with_piece self.old at piece.now }
        ensures packet { IsPacket self.new }
    {
        self.row[at..at + piece.len()].copy_from_slice(piece);
    }
}
