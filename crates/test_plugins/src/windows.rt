//! Tests of `compact` and `rmorphan` on a few packets, with enough memory.

ghost use Rattle.std.specs.Prelude.{[], ◌<◌, ◌≤◌, ℕ, length, slice_index, vec_len};

use crate::cells::{given, live, one_component, one_service, packet, packet_of};
use crate::compared::{holds, same};
use plug_psi::Referred;
use plug_window::{WindowConf, new_compact, new_rmorphan};
use std::alloc::{AllocError, Global};
use std::process::Abort;
use std::test::Fail;
use ts_bits::DescriptorList;
use ts_packet::{Cell, Labels, NULL_PID, Packet};
use ts_psi::Component;

/// Cells with packets on these PIDs, each with its index as its label.
fn cells_on(alloc: Global, pids: &[u16]) -> Result<Vec<Cell>, AllocError>
    requires pids { (k : ℕ) → slice_index pids.now k < 8192 }
    requires few { length pids.now < 32 }
{
    let mut cells = Vec::new(alloc);
    for (i, pid) in pids.iter().enumerate() {
        cells.push(Cell::of(packet(*pid), Labels::none().with(i as u32)))?;
    }
    Ok(cells)
}

/// The PID of a cell's packet; `None` for a dropped cell.
fn pid_of(cell: &Cell) -> Option<u16> {
    cell.live().map(|live| live.packet.pid())
}

/// Checks that the cells have packets on these PIDs, or none.
fn are_on(rt: &impl Abort, cells: &[Cell], pids: &[Option<u16>]) {
    same(rt, cells.len(), pids.len());
    for (cell, pid) in cells.iter().zip(pids) {
        same(rt, pid_of(cell), *pid);
    }
}

/// Checks that a cell has a packet with this label.
fn has_label(rt: &impl Abort, cells: &[Cell], at: usize, label: u32)
    requires { label < 32 }
{
    let has = match cells.get(at).and_then(Cell::live) {
        Some(live) => live.labels.has(label),
        None => false,
    };
    holds(rt, has);
}

/// What `compact` outputs for packets in two blocks of three, followed by three null packets.
fn compacted(alloc: Global) -> Result<Vec<Cell>, Fail> {
    let conf = WindowConf {
        window: 3,
        stuffing: false,
    };
    let cells = cells_on(alloc, &[256, 8191, 257, 8191, 8191, 256, 8191, 8191, 8191])?;
    Ok(given(new_compact(alloc, &conf, 1), cells)?.1)
}

static COMPACTED: [Option<u16>; 9] = [
    None,
    None,
    None,
    Some(256),
    Some(257),
    Some(NULL_PID),
    Some(256),
    Some(NULL_PID),
    Some(NULL_PID),
];

/// Checks what it outputs, and two of the labels.
fn is_compacted(rt: &impl Abort, cells: &[Cell]) {
    are_on(rt, cells, &COMPACTED);
    has_label(rt, cells, 4, 2);
    has_label(rt, cells, 6, 5);
}

#[test]
fn null_packets_come_last_in_each_block(rt: HostRuntime) -> Result<(), Fail> {
    let cells = compacted(rt.alloc())?;
    is_compacted(&rt, &cells);
    Ok(())
}

/// A packet on PID 0 that carries a PAT of service 1 on PID 4096.
fn pat_packet(alloc: Global) -> Result<Packet, Fail> {
    packet_of(alloc, 0, one_service(alloc, None)?.sections(alloc))
}

/// A packet on PID 4096 that carries a PMT of service 1, whose component is on PID 300.
fn pmt_packet(alloc: Global) -> Result<Packet, Fail> {
    let component = Component {
        stream_type: 0x1B,
        pid: 300,
        descriptors: DescriptorList::of(Vec::new(alloc)),
    };
    let pmt = one_component(alloc, 0, component)?;
    packet_of(alloc, 4096, pmt.sections(alloc))
}

/// A packet on a PID that a later table names, the tables, a packet on that PID after them, one on a PID that none
/// names, and three null packets.
fn late_tables(alloc: Global) -> Result<Vec<Cell>, Fail> {
    let mut cells = Vec::new(alloc);
    cells.push(live(packet(300)))?;
    cells.push(live(pat_packet(alloc)?))?;
    cells.push(live(pmt_packet(alloc)?))?;
    cells.push(live(packet(300)))?;
    cells.push(live(packet(301)))?;
    for _ in 0..3_usize {
        cells.push(live(Packet::null()))?;
    }
    Ok(cells)
}

/// What `rmorphan` outputs for them.
fn kept(alloc: Global, window: u64, stuffing: bool) -> Result<Vec<Cell>, Fail>
    requires least { 1 ≤ window }
    requires most { window ≤ 100000 }
{
    let conf = WindowConf { window, stuffing };
    let cells = late_tables(alloc)?;
    Ok(given(new_rmorphan(alloc, &conf), cells)?.1)
}

static IN_THE_WINDOW: [Option<u16>; 8] = [
    None,
    None,
    None,
    Some(300),
    Some(0),
    Some(4096),
    Some(300),
    None,
];

static TOO_LATE: [Option<u16>; 8] = [
    Some(NULL_PID),
    Some(NULL_PID),
    Some(0),
    Some(4096),
    Some(300),
    Some(NULL_PID),
    Some(NULL_PID),
    Some(NULL_PID),
];

/// A table in the window counts, and one after the window comes too late.
#[test]
fn a_window_keeps_what_its_tables_name(rt: HostRuntime) -> Result<(), Fail> {
    are_on(&rt, &kept(rt.alloc(), 3, false)?, &IN_THE_WINDOW);
    are_on(&rt, &kept(rt.alloc(), 1, true)?, &TOO_LATE);
    Ok(())
}

/// The PIDs that a PAT of service 1 refers to.
fn referred(alloc: Global) -> Result<Referred, Fail> {
    let pat = pat_packet(alloc)?;
    let mut referred = Referred::new(alloc)?;
    referred.feed(0, &pat)?;
    Ok(referred)
}

/// Checks whether these PIDs are referred to.
fn are_told(rt: &impl Abort, referred: &Referred, pids: &[u16], wanted: bool)
    requires { (k : ℕ) → slice_index pids.now k < 8192 }
{
    for pid in pids {
        same(rt, (*pid, referred.has(*pid)), (*pid, wanted));
    }
}

#[test]
fn a_pat_refers_to_its_services(rt: HostRuntime) -> Result<(), Fail> {
    let referred = referred(rt.alloc())?;
    are_told(&rt, &referred, &[0, 31, 4096, 8191], true);
    are_told(&rt, &referred, &[32, 300, 8190], false);
    Ok(())
}
