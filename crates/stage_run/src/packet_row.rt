//! One packet in a row of bytes.
ghost use Rattle.std.specs.Prelude.{◌≡◌, ◌+◌, ◌≤◌, length, take, drop, slice_index};
ghost use Rattle.ts_packet.specs.Packet.{IsPacket};
ghost use Rattle.ts_packet.specs.Cells.{Live};
ghost use Rattle.ts_packet.specs.Labels.{no_labels};
ghost use Rattle.cell_rows.specs.Cells.{cell_of};

use cell_rows::Mark;
use ts_packet::{PACKET_SIZE, Packet};

/// The packet of these bytes, which begin with the sync byte.
#[inline]
fn packet_of(row: &[u8; PACKET_SIZE]) -> Packet
    requires sync { slice_index row.now 0 ≡ 0x47 }
    ensures bytes { result ≡ row.now }
    ensures packet { IsPacket row.now }
{
    match Packet::of(row) {
        Ok(packet) => packet,
        Err(_) => unreachable!(),
    }
}

/// Puts the packet at a place of a row of bytes into a slot, without labels.
pub(crate) fn put_packet(packet: &mut Packet, mark: &mut Mark, bytes: &[u8], from: usize)
    requires whole { from + PACKET_SIZE ≤ length bytes.now }
    requires sync { slice_index bytes.now from ≡ 0x47 }
    ensures put { cell_of packet.new mark.new ≡ Live (take PACKET_SIZE (drop from bytes.now)) no_labels }
    ensures packet { IsPacket (take PACKET_SIZE (drop from bytes.now)) }
{
    let Ok(row) = <&[u8; PACKET_SIZE]>::try_from(&bytes[from..from + PACKET_SIZE]) else {
        unreachable!()
    };
    *packet = packet_of(row);
    *mark = Mark::live();
}
