//! Tests of `remap`: worked rows of packets, and each call that allocates, once with enough memory.

ghost use Rattle.std.specs.Prelude.{◌<◌, [], IfOk};

use crate::cells::{given, live, one_component, one_service, packet, packet_of};
use crate::compared::{holds, same};
use plug_move::{Remap, RemapConf, new_remap};
use plugin_options::PairList;
use plugin_trait::{ListEnd, Plugin, Reason};
use std::alloc::{AllocError, Global};
use std::process::Abort;
use std::test::Fail;
use ts_bits::{Descriptor, DescriptorList};
use ts_packet::{Cell, NULL_PID};
use ts_psi::{Cat, Component};

/// The plugin that moves PIDs 256 and 257, without tables.
fn remap_of_two(alloc: Global, unchecked: bool) -> Result<Remap, AllocError>
    ensures { IfOk result (λ plugin. ⟦<Remap as Plugin>⟧.stands_for plugin [] 0) }
{
    let pairs = vec![in alloc; (256, 512), (257, 256)]?;
    let conf = RemapConf {
        operand: PairList::of(pairs),
        no_psi: true,
        unchecked,
    };
    new_remap(alloc, &conf, 1)
}

/// Its output for four packets, and how it ends.
fn remapped(alloc: Global, unchecked: bool) -> Result<(ListEnd, Vec<Cell>), AllocError> {
    let cells = vec![in alloc; cell(256), cell(257), cell(258), cell(512)]?;
    given(remap_of_two(alloc, unchecked), cells)
}

/// A cell with a packet on a PID.
fn cell(pid: u16) -> Cell
    requires { pid < 8192 }
{
    live(packet(pid))
}

/// The PID of a cell's packet.
fn pid_of(cell: &Cell) -> Option<u16> {
    cell.live().map(|live| live.packet.pid())
}

/// Checks that the cells have packets on these PIDs.
fn are_on(rt: &impl Abort, cells: &[Cell], pids: &[u16]) {
    same(rt, cells.len(), pids.len());
    for (cell, pid) in cells.iter().zip(pids) {
        same(rt, pid_of(cell), Some(*pid));
    }
}

/// Checks how it ends, and on which PIDs the packets then are.
fn moves(
    rt: &(impl Abort + AllocGlobal),
    unchecked: bool,
    wanted: ListEnd,
    pids: &[u16],
) -> Result<(), Fail> {
    let (end, cells) = remapped(rt.alloc(), unchecked)?;
    same(rt, end, wanted);
    are_on(rt, &cells, pids);
    Ok(())
}

#[test]
fn remap_moves_and_refuses(rt: HostRuntime) -> Result<(), Fail> {
    let refused = ListEnd::Refuse(Reason::Pid(512));
    moves(&rt, false, refused, &[512, 256, 258])?;
    moves(&rt, true, ListEnd::Through, &[512, 256, 258, 512])
}

/// A cell with a PAT of service 1 on PID 4096 and the network PID 256.
fn pat_cell(alloc: Global) -> Result<Cell, Fail> {
    let pat = one_service(alloc, Some(256))?;
    Ok(live(packet_of(alloc, 0, pat.sections(alloc))?))
}

/// Two CA_descriptors of PID 256: one with its reserved bits as ones and with two private bytes, and one with its
/// reserved bits as zeros and without private bytes.
fn descriptors(alloc: Global) -> Result<DescriptorList, Fail> {
    let read = Descriptor::new(alloc, 0x09, &[0x18, 0x00, 0xE1, 0x00, 0xAA, 0xBB])?;
    let other = Descriptor::new(alloc, 0x09, &[0x18, 0x00, 0x01, 0x00])?;
    Ok(DescriptorList::of(vec![in alloc; read, other]?))
}

/// A CAT with both.
fn cat_cell(alloc: Global) -> Result<Cell, Fail> {
    let cat = Cat {
        version: 0,
        current: true,
        descriptors: descriptors(alloc)?,
    };
    Ok(live(packet_of(alloc, 1, cat.sections(alloc))?))
}

/// A cell with a PMT of service 1 with PCR_PID 256 and a component on it.
fn pmt_cell(alloc: Global) -> Result<Cell, Fail> {
    let component = Component {
        stream_type: 2,
        pid: 256,
        descriptors: descriptors(alloc)?,
    };
    let pmt = one_component(alloc, 0, component)?;
    Ok(live(packet_of(alloc, 4096, pmt.sections(alloc))?))
}

/// The plugin that moves some PIDs, including that of the PAT.
fn remap(alloc: Global) -> Result<Remap, AllocError>
    ensures { IfOk result (λ plugin. ⟦<Remap as Plugin>⟧.stands_for plugin [] 0) }
{
    let pairs = vec![in alloc; (0, 301), (256, 512), (4096, 300)]?;
    let conf = RemapConf {
        operand: PairList::of(pairs),
        no_psi: false,
        unchecked: false,
    };
    new_remap(alloc, &conf, 1)
}

/// Its output for cells.
fn moved(alloc: Global, cells: Vec<Cell>) -> Result<Vec<Cell>, Fail> {
    Ok(given(remap(alloc), cells)?.1)
}

/// Whether a cell has a packet on this PID whose section body begins with these bytes.
fn shows(cell: Option<&Cell>, pid: u16, body: &[u8]) -> bool {
    let Some(cell) = cell else {
        return false;
    };
    match cell.live() {
        Some(live) => live.packet.pid() == pid && live.packet.bytes()[13..].starts_with(body),
        None => false,
    }
}

/// Which cells a plugin moves.
#[derive(Clone, Copy)]
enum Table {
    Pat,
    Cat,
    /// A PMT before and after the PAT that names it.
    Pmt,
    /// A packet that the plugin puts in.
    None,
}

/// A PMT, the PAT and the PMT again, after the plugin.
fn pmt_moved(alloc: Global) -> Result<Vec<Cell>, Fail> {
    moved(
        alloc,
        vec![in alloc; pmt_cell(alloc)?, pat_cell(alloc)?, pmt_cell(alloc)?]?,
    )
}

/// These cells, after the plugin.
fn moved_of(alloc: Global, table: Table) -> Result<Vec<Cell>, Fail> {
    match table {
        Table::Pat => moved(alloc, vec![in alloc; pat_cell(alloc)?]?),
        Table::Cat => moved(alloc, vec![in alloc; cat_cell(alloc)?]?),
        Table::Pmt => pmt_moved(alloc),
        Table::None => moved(alloc, vec![in alloc; cell(0)]?),
    }
}

/// Checks the first of these cells.
fn first_shows(
    rt: &(impl Abort + AllocGlobal),
    table: Table,
    pid: u16,
    body: &[u8],
) -> Result<(), Fail> {
    let cells = moved_of(rt.alloc(), table)?;
    holds(rt, shows(cells.first(), pid, body));
    Ok(())
}

/// Checks the last of these cells.
fn last_shows(
    rt: &(impl Abort + AllocGlobal),
    table: Table,
    pid: u16,
    body: &[u8],
) -> Result<(), Fail> {
    let cells = moved_of(rt.alloc(), table)?;
    holds(rt, shows(cells.last(), pid, body));
    Ok(())
}

static PAT: [u8; 8] = [0x00, 0x00, 0xE2, 0x00, 0x00, 0x01, 0xE1, 0x2C];

static CAT: [u8; 14] = [
    0x09, 0x06, 0x18, 0x00, 0xE2, 0x00, 0xAA, 0xBB, 0x09, 0x04, 0x18, 0x00, 0x01, 0x00,
];

static PMT_AS_IT_WAS: [u8; 7] = [0xE1, 0x00, 0xF0, 0x00, 0x02, 0xE1, 0x00];

static PMT: [u8; 15] = [
    0xE2, 0x00, 0xF0, 0x00, 0x02, 0xE2, 0x00, 0xF0, 0x0E, 0x09, 0x06, 0x18, 0x00, 0xE2, 0x00,
];

/// A PAT and a CAT follow, a PMT follows once it is named, and a null packet that is put in stays.
#[test]
fn tables_follow(rt: HostRuntime) -> Result<(), Fail> {
    first_shows(&rt, Table::Pat, 301, &PAT)?;
    first_shows(&rt, Table::Cat, 1, &CAT)?;
    first_shows(&rt, Table::Pmt, 300, &PMT_AS_IT_WAS)?;
    last_shows(&rt, Table::Pmt, 300, &PMT)?;
    first_shows(&rt, Table::None, NULL_PID, &[0xFF])
}
