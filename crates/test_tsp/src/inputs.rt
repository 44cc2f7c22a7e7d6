//! The input file of a row: packets with payload, made from their PIDs and continuity counters.
ghost use Rattle.std.specs.Prelude.{◌<◌, length};

use crate::bytes::Bytes;
use crate::carried::Carried;
use crate::long_pat::PatPart;
use crate::mixed_stream::push_mixed;
use std::alloc::{AllocError, Global};

const OTHER_BYTE: u8 = 0x46;

/// The two flags of `Input::Headed`.
const FLAGS_BYTE: u8 = 0x90;

/// The byte of which the bytes before and after the packets of units consist.
const BESIDE_BYTE: u8 = 0x99;

/// So many bytes of packets on these PIDs, each with further bytes before and after it.
#[derive(Clone, Copy)]
pub(crate) struct Units {
    pub(crate) pids: &'static [u16],
    pub(crate) before: usize,
    pub(crate) behind: usize,
    pub(crate) len: usize,
}

/// A piece of a file with damage.
#[derive(Clone, Copy)]
pub(crate) enum Piece {
    /// Packets on these PIDs, each before so many further bytes.
    Packets(&'static [u16], usize),
    /// A packet on this PID with a wrong sync byte, before so many further bytes.
    Wrong(u16, usize),
    /// So many bytes without a sync byte.
    Junk(usize),
}

/// A packet with a PCR and without payload.
#[derive(Clone, Copy)]
pub(crate) struct Clocked {
    /// Its PID; above the 13 bits of it, 0x8000 is the transport_error_indicator.
    pub(crate) pid: u16,
    /// The flags of its adaptation field: 0x10 for the PCR, and 0x80 for a discontinuity.
    pub(crate) flags: u8,
    /// Its PCR, in units of 27 MHz.
    pub(crate) clock: u64,
}

/// What is in the file that a row reads.
#[derive(Clone, Copy)]
pub(crate) enum Input {
    /// Packets on these PIDs, with right continuity counters.
    Pids(&'static [u16]),
    /// Packets on PID 256 with these counters.
    Counters(&'static [u8]),
    /// So many bytes of packets on these PIDs.
    Cut(&'static [u16], usize),
    /// Packets on these PIDs, with 0x46 for the sync byte at this place.
    Lost(&'static [u16], usize),
    /// Sixty packets of many kinds on four PIDs.
    Mixed,
    /// A packet for each of these tables, with counters from 5 on.
    Tables(&'static [Carried]),
    /// Packets on these PIDs, a packet for each of these tables as above, and packets on these PIDs.
    Around(&'static [u16], &'static [Carried], &'static [u16]),
    /// A packet for each of these tables as above, and scrambled packets on these PIDs, with counters from 0 on.
    Scrambled(&'static [Carried], &'static [u16]),
    /// Packets with these first five bytes. Their other bytes are 0x90: as the flags of an adaptation field, a
    /// discontinuity and a PCR.
    Headed(&'static [[u8; 5]]),
    /// Packets with these PCRs.
    Clocks(&'static [Clocked]),
    /// These packets of PATs, with counters from 0 on.
    LongPats(&'static [PatPart]),
    /// Packets with bytes before or after each.
    Units(Units),
    /// Pieces one after another.
    Pieces(&'static [Piece]),
}

/// The bytes of the file.
pub(crate) fn input_bytes(alloc: Global, input: Input) -> Result<Vec<u8>, AllocError> {
    let mut bytes = Bytes::new(alloc);
    push_input(&mut bytes, input);
    bytes.finish()
}

/// Appends what is in a file.
fn push_input(bytes: &mut Bytes, input: Input) {
    match input {
        Input::Pids(pids) => push_packets(bytes, pids),
        Input::Counters(counters) => push_counters(bytes, counters),
        Input::Cut(pids, len) => {
            push_packets(bytes, pids);
            bytes.truncate(len);
        }
        Input::Lost(pids, place) => {
            push_packets(bytes, pids);
            bytes.put(place, OTHER_BYTE);
        }
        Input::Mixed => push_mixed(bytes),
        Input::Tables(carried) => push_tables(bytes, carried),
        Input::Around(before, carried, behind) => {
            push_packets(bytes, before);
            push_tables(bytes, carried);
            push_packets(bytes, behind);
        }
        Input::Scrambled(carried, pids) => {
            push_tables(bytes, carried);
            push_scrambled(bytes, pids);
        }
        Input::Headed(heads) => push_headed(bytes, heads),
        Input::Clocks(clocks) => push_clocks(bytes, clocks),
        Input::LongPats(parts) => push_parts(bytes, parts),
        Input::Units(units) => push_units(bytes, units),
        Input::Pieces(pieces) => push_pieces(bytes, pieces),
    }
}

/// A packet on each of these PIDs, with the counter that follows the one before on its PID.
fn push_packets(bytes: &mut Bytes, pids: &[u16]) {
    for i in 0..pids.len() {
        push_place(bytes, pids, i);
    }
}

/// The packet of the PID at this place.
fn push_place(bytes: &mut Bytes, pids: &[u16], i: usize)
    requires { i < length pids.now }
{
    let pid = pids[i];
    let before = pids[..i].iter().filter(|p| **p == pid).count();
    push_packet(bytes, pid, (before % 16) as u8);
}

/// The first bytes of packets on these PIDs, each with what is before and after it.
fn push_units(bytes: &mut Bytes, units: Units) {
    let pids = units.pids;
    for i in 0..pids.len() {
        bytes.fill(BESIDE_BYTE, units.before);
        push_place(bytes, pids, i);
        bytes.fill(BESIDE_BYTE, units.behind);
    }
    bytes.truncate(units.len);
}

/// These pieces, one after another; the counters begin anew in each.
fn push_pieces(bytes: &mut Bytes, pieces: &[Piece]) {
    for piece in pieces {
        push_piece(bytes, *piece);
    }
}

fn push_piece(bytes: &mut Bytes, piece: Piece) {
    match piece {
        Piece::Packets(pids, behind) => {
            for i in 0..pids.len() {
                push_place(bytes, pids, i);
                bytes.fill(BESIDE_BYTE, behind);
            }
        }
        Piece::Wrong(pid, behind) => {
            let [high, low] = pid.to_be_bytes();
            bytes.extend(&[OTHER_BYTE, high, low, 0x10]);
            bytes.fill(BESIDE_BYTE, 184);
            bytes.fill(BESIDE_BYTE, behind);
        }
        Piece::Junk(count) => bytes.fill(BESIDE_BYTE, count),
    }
}

/// A packet on PID 256 with each of these counters.
fn push_counters(bytes: &mut Bytes, counters: &[u8]) {
    for counter in counters {
        push_packet(bytes, 256, *counter);
    }
}

/// A packet with payload from byte 4 on and without its unit start; the bytes of its payload count up from the counter.
fn push_packet(bytes: &mut Bytes, pid: u16, counter: u8) {
    let [high, low] = pid.to_be_bytes();
    bytes.extend(&[0x47, high, low, 0x10 | counter % 16]);
    bytes.count_up(counter);
}

/// A packet on each of these PIDs whose payload was scrambled with the even key.
fn push_scrambled(bytes: &mut Bytes, pids: &[u16]) {
    for (i, pid) in pids.iter().enumerate() {
        let [high, low] = pid.to_be_bytes();
        bytes.extend(&[0x47, high, low, 0x90 | (i % 16) as u8]);
        bytes.count_up(0);
    }
}

/// A packet for each section, with unit start, pointer 0 and 0xFF after the section.
fn push_tables(bytes: &mut Bytes, carried: &[Carried]) {
    for (i, table) in carried.iter().enumerate() {
        push_table(bytes, *table, ((i + 5) % 16) as u8);
    }
}

/// A packet with a section and this counter.
fn push_table(bytes: &mut Bytes, table: Carried, counter: u8) {
    let [high, low] = table.pid().to_be_bytes();
    let section = table.section();
    bytes.extend(&[0x47, 0x40 | high, low, 0x10 | counter, 0]);
    bytes.extend(section);
    bytes.fill(0xFF, 183usize.saturating_sub(section.len()));
}

/// A packet for each of these heads, filled up with one byte.
fn push_headed(bytes: &mut Bytes, heads: &[[u8; 5]]) {
    for head in heads {
        bytes.extend(head);
        bytes.fill(FLAGS_BYTE, 183);
    }
}

/// A packet for each of these PCRs.
fn push_clocks(bytes: &mut Bytes, clocks: &[Clocked]) {
    for clocked in clocks {
        push_clock(bytes, *clocked);
    }
}

/// A packet that is an adaptation field with a PCR.
fn push_clock(bytes: &mut Bytes, clocked: Clocked) {
    let [high, low] = clocked.pid.to_be_bytes();
    bytes.extend(&[0x47, high, low, 0x20, 183, clocked.flags]);
    let (base, rest) = (clocked.clock / 300, clocked.clock % 300);
    let [_, _, a, b, c, d, e, f] = (base << 15 | 0x7E00 | rest).to_be_bytes();
    bytes.extend(&[a, b, c, d, e, f]);
    bytes.fill(0xFF, 176);
}

/// The packets of these parts of PATs.
fn push_parts(bytes: &mut Bytes, parts: &[PatPart]) {
    for (i, part) in parts.iter().enumerate() {
        part.push(bytes, (i % 16) as u8);
    }
}
