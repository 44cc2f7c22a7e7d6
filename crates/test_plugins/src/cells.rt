//! Packets and cells that several tests share.

ghost use Rattle.std.specs.Prelude.{◌≡◌, ◌<◌, ◌≤◌, [], ℕ, Some, IfOk, vec_len};
ghost use Rattle.chain_model.specs.declared.positions.TheConstants.{POSITION_LIMIT};

use crate::applied::apply;
use crate::compared::{holds, same, same_bytes};
use plugin_trait::{ListEnd, Plugin};
use std::alloc::{AllocError, Global};
use std::process::Abort;
use std::test::Fail;
use ts_bits::DescriptorList;
use ts_packet::{Cell, Labels, PACKET_SIZE, Packet};
use ts_packetize::packets;
use ts_psi::{Component, ComponentList, Pat, PatService, PatServiceList, Pmt};
use ts_section::Section;
use ts_table_rows::TableRefusal;

/// A packet on a PID, with counter 0 and a payload of bytes 0xFF.
pub(crate) fn packet(pid: u16) -> Packet
    requires { pid < 8192 }
{
    let mut packet = Packet::null();
    packet.set_pid(pid);
    packet
}

/// The first packet with the sections of a table.
pub(crate) fn packet_of(
    alloc: Global,
    pid: u16,
    written: Result<Vec<Section>, TableRefusal>,
) -> Result<Packet, Fail>
    requires { pid < 8191 }
{
    let sections = written?;
    let list = packets(alloc, pid, &sections)?;
    match list.as_slice().first() {
        Some(packet) => Ok(*packet),
        None => Err("no packet".into()),
    }
}

/// A PAT of service 1 on PID 4096.
pub(crate) fn one_service(alloc: Global, network_pid: Option<u16>) -> Result<Pat, Fail>
    requires { (pid : ℕ) → network_pid ≡ Some pid → pid < 8192 }
{
    let service = PatService {
        service_id: 1,
        pid: 4096,
    };
    Ok(Pat {
        version: 0,
        current: true,
        stream_id: 1,
        network_pid,
        services: PatServiceList::of(vec![in alloc; service]?),
    })
}

/// A PMT of service 1 with one component, on whose PID its PCRs are.
pub(crate) fn one_component(alloc: Global, version: u8, component: Component) -> Result<Pmt, Fail>
    requires version { version < 32 }
    requires pid { component.pid < 8192 }
{
    let pcr_pid = component.pid;
    Ok(Pmt {
        version,
        current: true,
        service_id: 1,
        pcr_pid,
        descriptors: DescriptorList::of(Vec::new(alloc)),
        components: ComponentList::of(vec![in alloc; component]?),
    })
}

/// A cell with a packet, and without labels.
pub(crate) fn live(packet: Packet) -> Cell {
    Cell::of(packet, Labels::none())
}

/// What a new plugin outputs for cells, and how it ends their list.
pub(crate) fn given<P: Plugin + Drop>(
    plugin: Result<P, AllocError>,
    mut cells: Vec<Cell>,
) -> Result<(ListEnd, Vec<Cell>), AllocError>
    requires fresh { IfOk plugin (λ p. P.stands_for p [] 0) }
    requires short { vec_len cells ≤ POSITION_LIMIT }
{
    let mut plugin = plugin?;
    let end = apply(&mut plugin, &mut cells);
    Ok((end, cells))
}

/// A value in a box of its own.
pub(crate) fn boxed<T: Drop>(
    alloc: Global,
    value: Result<T, AllocError>,
) -> Result<Box<T>, AllocError> {
    Ok(Box::new(alloc, value?)?)
}

/// The bytes of a cell's packet from an offset on; an empty slice for a dropped cell.
pub(crate) fn bytes_from(cell: &Cell, from: usize) -> &[u8] {
    match cell.live() {
        Some(live) if from <= PACKET_SIZE => &live.packet.bytes()[from..],
        _ => &[],
    }
}

/// Checks the bytes of a cell's packet from an offset on.
fn shows(rt: &impl Abort, cell: &Cell, from: usize, wanted: &[u8]) {
    match bytes_from(cell, from).get(..wanted.len()) {
        Some(bytes) => same_bytes(rt, bytes, wanted),
        None => holds(rt, false),
    }
}

/// Checks the bytes of each cell's packet from an offset on.
pub(crate) fn each_shows(rt: &impl Abort, cells: &[Cell], from: usize, wanted: &[u8]) {
    for cell in cells {
        shows(rt, cell, from, wanted);
    }
}

/// The continuity counter of a cell's packet; `None` for a dropped cell.
pub(crate) fn counter_of(cell: &Cell) -> Option<u8> {
    cell.live().map(|live| live.packet.counter())
}

/// Checks that the counters count up from 0.
pub(crate) fn are_counted(rt: &impl Abort, cells: &[Cell]) {
    for (i, cell) in cells.iter().enumerate() {
        same(rt, counter_of(cell).map(usize::from), Some(i));
    }
}
