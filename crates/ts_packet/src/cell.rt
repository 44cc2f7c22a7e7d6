//! A cell: a place in the chain for one packet.
//!
//! A cell is a struct and no enum, so that a drop writes one byte. A value of an enum is made elsewhere and copied
//! whole: a drop would write 196 bytes, and a packet that comes into a dropped cell would be copied twice. Contracts
//! see what the enum would say (`CellValue`), so no rule, definition or theorem knows of the byte. As the view leaves
//! out what a dropped cell holds, a cell is not `Copy`, and its `clone` is written by hand.
//!
//! A cell takes 196 bytes: 188 of the packet, 4 of the labels, 4 of the mark with its filling (a test of `test_low`
//! measures it). Labels in a list of their own would save the filling and cost every stage a second place to read.
ghost use Rattle.std.specs.Prelude.{◌≡◌, MatchOption, slice_index};
ghost use Rattle.std.specs.Borrow.{LendsIf, sem};
ghost use Rattle.ts_packet.specs.Cells.{Live, Dropped, is_live};
ghost use Rattle.ts_packet.specs.Labels.{no_labels};
ghost use Rattle.ts_packet.specs.Packet.{IsPacket};
ghost use Rattle.ts_packet.specs.contracts.cell.Cell.{the_row};
ghost use Rattle.ts_packet.specs.contracts.live_packet.LivePacket.{the_row as live_row};

use crate::labels::Labels;
use crate::live_packet::LivePacket;
use crate::numbers::PACKET_SIZE;
use crate::packet::Packet;
use std::alloc::AllocError;
use std::marker::Model;

/// A place in the chain: a packet with its labels, or the mark of one that a plugin dropped.
///
/// Contracts see `Live` with the packet and its labels, or `Dropped`. The bytes of a dropped packet stay in memory,
/// where nothing reads them, so that a drop writes one byte.
#[derive(Drop)]
pub struct Cell {
    // Before the packet, so that it lies beside the packet's header.
    is_live: bool,
    held: LivePacket,
}

impl Model for Cell {
    ghost use Rattle.std.specs.Prelude.{if◌then◌else◌};
    ghost use Rattle.ts_packet.specs.Cells.{CellValue, Live, Dropped};

    ghost Value = { CellValue };

    ghost view = { λ c. if c.is_live then Live c.held.packet c.held.labels else Dropped };
}

impl Clone for Cell {
    ghost use Rattle.std.specs.Prelude.{◌≡◌};

    ghost is_clone = { λ cell copy. copy ≡ cell };

    fn clone(&self) -> Result<Cell, AllocError> {
        Ok(Cell {
            held: self.held,
            is_live: self.is_live,
        })
    }
}

impl Cell {
    /// A cell with a packet and its labels.
    pub fn of(packet: Packet, labels: Labels) -> Cell
        ensures { result ≡ Live packet labels }
    {
        Cell {
            held: LivePacket { packet, labels },
            is_live: true,
        }
    }

    /// A cell of a dropped packet.
    pub fn dropped() -> Cell
        ensures { result ≡ Dropped }
    {
        Cell {
            held: LivePacket {
                packet: Packet::null(),
                labels: Labels::none(),
            },
            is_live: false,
        }
    }

    /// Whether it has a packet.
    #[inline]
    pub fn is_live(&self) -> bool
        ensures { result ≡ is_live self.now }
    {
        self.is_live
    }

    /// The packet with its labels; none where it was dropped.
    #[inline]
    pub fn live(&self) -> Option<&LivePacket>
        ensures { MatchOption result (self.now ≡ Dropped)
            (λ live. self.now ≡ Live live.now.packet live.now.labels) }
    {
        if self.is_live { Some(&self.held) } else { None }
    }

    /// The packet with its labels, to be changed in place; none where it was dropped.
    #[inline]
    pub fn live_mut(&mut self) -> Option<&mut LivePacket>
        ensures* writes_back { sem 𝓛
            (LendsIf the_row live_row self.entry result (λ live. Live live.packet live.labels) self.old) }
        ensures value { MatchOption result (self.old ≡ Dropped)
            (λ live. self.old ≡ Live live.now.packet live.now.labels) }
    {
        if self.is_live {
            Some(&mut self.held)
        } else {
            None
        }
    }

    /// Drops its packet, if it has one.
    #[inline]
    pub fn drop_packet(&mut self)
        ensures { self.new ≡ Dropped }
    {
        self.is_live = false;
    }

    /// Puts a packet without labels into the cell, in place of what it had.
    #[inline]
    pub fn put(&mut self, packet: Packet)
        ensures { self.new ≡ Live packet no_labels }
    {
        self.put_bytes(packet.bytes());
    }

    /// Puts the packet of these bytes, which begin with the sync byte, without labels into the cell. They are copied once.
    #[inline]
    pub fn put_bytes(&mut self, bytes: &[u8; PACKET_SIZE])
        requires sync { slice_index bytes.now 0 ≡ 0x47 }
        ensures put { self.new ≡ Live bytes.now no_labels }
        ensures packet { IsPacket bytes.now }
    {
        self.held.packet.set_bytes(bytes);
        self.held.labels = Labels::none();
        self.is_live = true;
    }
}
