//! The live packets of cells, gathered and written.
ghost use Rattle.std.specs.Prelude.{◌≡◌, ◌+◌, ◌++◌, ◌<◌, ◌≤◌, List, length, take, true};
ghost use Rattle.cell_rows.specs.Cells.{cell_of, cells_of};
ghost use Rattle.chain_model.specs.Written.{cell_bytes, written};
ghost use Rattle.stage_run.specs.Writing.{AreLive, StandsAt, WritesCells};

use cell_land::CellWindow;
use cell_rows::Mark;
use in_place::write_in_place;
use ts_land::Window;
use ts_outside::{Sink, write_whole};
use ts_packet::{PACKET_SIZE, Packet};

/// What was gathered for one piece.
#[derive(Clone, Copy)]
struct Gathered {
    /// How many cells, from the front.
    cells: usize,
    /// How many bytes their live packets have.
    bytes: usize,
}

/// How many bytes a cell writes.
#[inline]
fn size_of(packet: &Packet, mark: Mark) -> usize
    ensures { result ≡ length (cell_bytes (cell_of packet.now mark)) }
{
    if mark.is_live {
        return packet.bytes().len();
    }
    0
}

/// Puts the packet of a live cell behind the first bytes of the buffer. Returns how many they are then.
#[inline]
fn gather_one(room: &mut [u8], bytes: usize, packet: &Packet, mark: Mark) -> usize
    requires fits { bytes + PACKET_SIZE ≤ length room.old }
    ensures long { length room.new ≡ length room.old }
    ensures few { result ≤ bytes + PACKET_SIZE }
    ensures gathered { take result room.new ≡ take bytes room.old ++ cell_bytes (cell_of packet.now mark) }
{
    if mark.is_live {
        room[bytes..bytes + PACKET_SIZE].copy_from_slice(packet.bytes());
        return bytes + PACKET_SIZE;
    }
    bytes
}

/// Puts the packets of the live cells one after another into the buffer, as many as fit.
fn gather(room: &mut [u8], packets: &[Packet], marks: &[Mark]) -> Gathered
    requires room { PACKET_SIZE ≤ length room.old }
    requires long { length marks.now ≡ length packets.now }
    ensures within { result.cells ≤ length packets.now }
    ensures some { 0 < length packets.now → 0 < result.cells }
    ensures long { length room.new ≡ length room.old }
    ensures fits { result.bytes ≤ length room.new }
    ensures gathered { take result.bytes room.new ≡ written (take result.cells (cells_of packets.now marks.now)) }
{
    let mut bytes = 0;
    for i in 0..packets.len() {
        if room.len() - bytes < PACKET_SIZE {
            return Gathered { cells: i, bytes };
        }
        bytes = gather_one(room, bytes, &packets[i], marks[i]);
    }
    Gathered {
        cells: packets.len(),
        bytes,
    }
}

/// Which cell the byte of this number belongs to, of those that the cells write.
fn cell_of_byte(packets: &[Packet], marks: &[Mark], byte: usize) -> usize
    requires long { length marks.now ≡ length packets.now }
    requires some { byte < length (written (cells_of packets.now marks.now)) }
    ensures within { result < length packets.now }
    ensures stands { StandsAt (cells_of packets.now marks.now) byte result }
{
    let mut left = byte;
    for place in 0..packets.len() {
        let size = size_of(&packets[place], marks[place]);
        if left < size {
            return place;
        }
        left -= size;
    }
    unreachable!()
}

/// Writes the packets of the live cells, in pieces as large as the buffer.
///
/// Returns the number of cells before the one whose packet was not taken whole, or all of them.
fn write_cells<K: Sink>(sink: &mut K, room: &mut [u8], packets: &[Packet], marks: &[Mark]) -> usize
    requires room { PACKET_SIZE ≤ length room.old }
    requires long { length marks.now ≡ length packets.now }
    ensures within { result ≤ length packets.now }
    ensures writes { WritesCells (K.seen sink.old) (K.seen sink.new) (cells_of packets.now marks.now) result }
{
    let mut done = 0;
    while done < packets.len() {
        let rest = &packets[done..];
        let rest_marks = &marks[done..];
        let gathered = gather(room, rest, rest_marks);
        match write_whole(sink, &room[..gathered.bytes]) {
            Ok(()) => done += gathered.cells,
            Err(cut) => return done + cell_of_byte(rest, rest_marks, cut.taken),
        }
    }
    done
}

/// Whether no packet was dropped.
fn all_live(marks: &[Mark]) -> bool
    ensures { result ≡ true → AreLive marks.now }
{
    for i in 0..marks.len() {
        let mark = marks[i];
        if !mark.is_live {
            return false;
        }
    }
    true
}

/// Writes the packets of a window, of which none was dropped, straight from it.
///
/// Returns the number of packets before the one that was not taken whole, or all of them, with the window as it was.
fn write_window<K: Sink>(sink: &mut K, window: Window<Packet>) -> (usize, Window<Packet>)
    ensures same { result.1 ≡ window }
    ensures within { result.0 ≤ length window.cells }
    ensures writes { (marks : List Mark) → length marks ≡ length window.cells → AreLive marks
        → WritesCells (K.seen sink.old) (K.seen sink.new) (cells_of window.cells marks) result.0 }
{
    let len = window.len();
    let (window, written) = write_in_place(sink, window);
    match written {
        Ok(()) => (len, window),
        Err(cut) => (cut.taken / PACKET_SIZE, window),
    }
}

/// Writes the first cells of a window, from where they lie if they are all of it and none was dropped.
///
/// Returns the number of cells before the one whose packet was not taken whole, or all of them, with the window as it was.
pub(crate) fn write_first<K: Sink>(
    sink: &mut K,
    room: &mut [u8],
    window: CellWindow,
    len: usize,
) -> (usize, CellWindow)
    requires room { PACKET_SIZE ≤ length room.old }
    requires few { len ≤ length window.cells }
    ensures within { result.0 ≤ len }
    ensures writes { WritesCells (K.seen sink.old) (K.seen sink.new) (take len window.cells) result.0 }
    ensures same { result.1 ≡ window }
{
    let (packets, marks) = window.apart();
    let rows = packets.as_slice();
    let row_marks = marks.as_slice();
    if len == rows.len() {
        if all_live(row_marks) {
            let (done, packets) = write_window(sink, packets);
            return (done, CellWindow::of(packets, marks));
        }
    }
    let done = write_cells(sink, room, &rows[..len], &row_marks[..len]);
    (done, CellWindow::of(packets, marks))
}
