//! A window of packets with the window of their marks.
ghost use Rattle.std.specs.Prelude.{◌≡◌, ◌+◌, ◌<◌, ◌≤◌, length, take, drop, ◌++◌, replicate, IfOk};
ghost use Rattle.ts_packet.specs.Cells.{Dropped};
ghost use Rattle.ts_land.specs.Pieces.{piece_of};
ghost use Rattle.cell_rows.specs.Cells.{cells_of};
ghost use Rattle.cell_land.specs.Cells.{cell_piece, packets_land, marks_land};

use cell_rows::Mark;
use std::alloc::{AllocError, Global};
use std::marker::Model;
use ts_land::{Window, land};
use ts_packet::Packet;

/// Where the blocks of the packets and of their marks begin. It identifies them, and gives no access.
#[derive(Clone, Copy)]
pub struct Bases {
    /// The packets.
    pub packets: *mut Packet,
    /// The marks.
    pub marks: *mut Mark,
}

/// Packets side by side and their marks, to which nothing else has access.
///
/// Contracts see the cells: a live packet with its labels, or `Dropped`. The bytes of a dropped packet stay in memory.
pub struct CellWindow {
    packets: Window<Packet>,
    marks: Window<Mark>,
}

impl Model for CellWindow {
    ghost use Rattle.std.specs.Prelude.{◌≡◌, length};
    ghost use Rattle.cell_rows.specs.Cells.{cells_of};
    ghost use Rattle.cell_land.specs.Cells.{CellPiece, cell_piece_code, cell_piece};

    ghost Value = { CellPiece };

    ghost coded = { cell_piece_code };

    ghost view = { λ w. cell_piece
        (record { base = record { packets = w.packets.land.base; marks = w.marks.land.base }; count = w.packets.land.count })
        w.packets.start (cells_of w.packets.cells w.marks.cells) };

    ghost invariant = { λ w. (w.marks.start ≡ w.packets.start) × (length w.marks.cells ≡ length w.packets.cells)
        × (w.marks.land.count ≡ w.packets.land.count) };
}

impl CellWindow {
    /// The cells of these packets and marks, which lie in the same slots.
    pub fn of(packets: Window<Packet>, marks: Window<Mark>) -> CellWindow
        requires beside { marks.start ≡ packets.start }
        requires long { length marks.cells ≡ length packets.cells }
        requires count { marks.land.count ≡ packets.land.count }
        ensures { result ≡ cell_piece
            (record { base = record { packets = packets.land.base; marks = marks.land.base }; count = packets.land.count })
            packets.start (cells_of packets.cells marks.cells) }
    {
        CellWindow { packets, marks }
    }

    /// The packets and the marks.
    pub fn apart(self) -> (Window<Packet>, Window<Mark>)
        ensures packets { (result.0.land ≡ packets_land self.land) × (result.0.start ≡ self.start) }
        ensures marks { (result.1.land ≡ marks_land self.land) × (result.1.start ≡ self.start) }
        ensures cells { cells_of result.0.cells result.1.cells ≡ self.cells }
        ensures long { (length result.0.cells ≡ length self.cells) × (length result.1.cells ≡ length self.cells) }
    {
        let CellWindow { packets, marks } = self;
        (packets, marks)
    }

    /// Splits the window into the first `n` cells and the others. Either may be empty.
    pub fn split(self, n: usize) -> (CellWindow, CellWindow)
        requires within { n ≤ length self.cells }
        ensures front { result.0 ≡ cell_piece self.land self.start (take n self.cells) }
        ensures back { result.1 ≡ cell_piece self.land (self.start + n) (drop n self.cells) }
    {
        let (packets, marks) = self.apart();
        let (front, back) = packets.split(n);
        let (first, last) = marks.split(n);
        (CellWindow::of(front, first), CellWindow::of(back, last))
    }

    /// Joins two windows, if the other one begins in the slot in which this one ends.
    pub fn join(self, other: CellWindow) -> CellWindow
        requires land { other.land ≡ self.land }
        requires beside { other.start ≡ self.start + length self.cells }
        ensures { result ≡ cell_piece self.land self.start (self.cells ++ other.cells) }
    {
        let (packets, marks) = self.apart();
        let (more, others) = other.apart();
        CellWindow::of(packets.join(more), marks.join(others))
    }

    /// How many cells the window has.
    pub fn len(&self) -> usize
        ensures { result ≡ length self.now.cells }
    {
        self.packets.len()
    }

    /// The slot of its first cell, from 0 on.
    pub fn start(&self) -> usize
        ensures { result ≡ self.now.start }
    {
        self.packets.start()
    }

    /// Where its blocks begin.
    pub fn bases(&self) -> Bases
        ensures { result ≡ self.now.land.base }
    {
        Bases {
            packets: self.packets.base(),
            marks: self.marks.base(),
        }
    }

    /// Frees the blocks. The window has to have all their slots.
    pub fn close(self)
        requires whole { length self.cells ≡ self.land.count }
    {
        let (packets, marks) = self.apart();
        packets.close();
        marks.close();
    }
}

/// Blocks for `n` cells, all dropped, in one window. Only this call allocates; out of memory it returns `AllocError`.
pub fn cell_land(alloc: Global, n: usize) -> Result<CellWindow, AllocError>
    requires some { 0 < n }
    ensures { IfOk result (λ w. (w.start ≡ 0) × (w.cells ≡ replicate n Dropped) × (w.land.count ≡ n)) }
{
    let packets = land(alloc, n, Packet::null())?;
    match land(alloc, n, Mark::dropped()) {
        Ok(marks) => Ok(CellWindow::of(packets, marks)),
        Err(AllocError) => {
            packets.close();
            Err(AllocError)
        }
    }
}
