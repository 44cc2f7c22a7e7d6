//! Tests of tables in force and of the editor: each call that allocates, once with enough memory, on a few packets.

use crate::cells::{boxed, one_component, packet, packet_of};
use crate::compared::{holds, same};
use plug_psi::{Edited, Editor, InForce, TableEdit};
use std::alloc::{AllocError, Global};
use std::process::Abort;
use std::test::Fail;
use ts_bits::DescriptorList;
use ts_packet::{NULL_PID, Packet};
use ts_psi::Component;
use ts_section::{Section, TableRun};

/// A PAT of transport stream 1 with service 1 on PID 4096.
const PAT: [u8; 16] = [
    0x00, 0xB0, 0x0D, 0x00, 0x01, 0xC1, 0x00, 0x00, 0x00, 0x01, 0xF0, 0x00, 0x2A, 0xB1, 0x04, 0xB2,
];

/// An edit that leaves each table unchanged.
#[derive(Drop)]
struct Unchanged {}

impl TableEdit for Unchanged {
    ghost use Rattle.plug_psi.specs.Edits.{same};

    ghost change = { λ _ _. same };

    fn edit(&self, _alloc: Global, _run: &TableRun) -> Result<Edited, AllocError> {
        Ok(Edited::same())
    }
}

/// A packet on PID 0 that carries the PAT.
fn pat_packet(alloc: Global) -> Result<Packet, Fail> {
    let section = Section::parse(alloc, &PAT)?;
    let mut sections = Vec::new(alloc);
    sections.push(section)?;
    packet_of(alloc, 0, Ok(sections))
}

/// A packet on PID 4096 that carries a PMT of service 1 with one component.
fn pmt_packet(alloc: Global) -> Result<Packet, Fail> {
    let component = Component {
        stream_type: 0x1B,
        pid: 257,
        descriptors: DescriptorList::of(Vec::new(alloc)),
    };
    let pmt = one_component(alloc, 3, component)?;
    packet_of(alloc, 4096, pmt.sections(alloc))
}

/// A packet after the editor.
fn stepped(editor: &mut Editor<Unchanged>, packet: Packet) -> Result<Packet, AllocError> {
    let mut packet = packet;
    editor.step(0, &mut packet)?;
    Ok(packet)
}

/// The packet with counter 7.
fn counted(packet: Packet) -> Packet {
    let mut packet = packet;
    packet.set_counter(7);
    packet
}

/// Takes a packet before the PAT, and then the PAT twice.
fn replaces(
    rt: &impl Abort,
    editor: &mut Editor<Unchanged>,
    pat: Packet,
) -> Result<(), AllocError> {
    let early = stepped(editor, packet(0))?;
    same(rt, early.pid(), NULL_PID);
    let first = stepped(editor, counted(pat))?;
    let seen = (first.pid(), first.counter(), first.unit_start());
    let byte = first.payload().get(8).copied();
    same(rt, (seen, byte), ((0, 0, true), Some(0x00)));
    let second = stepped(editor, first)?;
    same(rt, second.counter(), 1);
    Ok(())
}

#[test]
fn packets_of_a_pat_are_replaced(rt: HostRuntime) -> Result<(), Fail> {
    let pat = pat_packet(rt.alloc())?;
    let mut editor = boxed(rt.alloc(), Editor::new(rt.alloc(), 0, Unchanged {}))?;
    replaces(&rt, &mut *editor, pat)?;
    Ok(())
}

/// Takes a PMT before the PAT that names its PID, and after it.
fn comes_into_force(
    rt: &impl Abort,
    force: &mut InForce,
    pat: &Packet,
    pmt: &Packet,
) -> Result<(), AllocError> {
    holds(rt, force.pat().is_none());
    force.feed(0, pmt)?;
    force.feed(0, pat)?;
    holds(rt, force.names(4096));
    holds(rt, force.pmt(1).is_none());
    force.feed(0, pmt)?;
    same(rt, force.pmt(1).map(|pmt| pmt.version), Some(3));
    holds(rt, !force.names(257));
    Ok(())
}

#[test]
fn a_pmt_in_force(rt: HostRuntime) -> Result<(), Fail> {
    let pmt = pmt_packet(rt.alloc())?;
    let pat = pat_packet(rt.alloc())?;
    let mut force = boxed(rt.alloc(), InForce::new(rt.alloc()))?;
    comes_into_force(&rt, &mut *force, &pat, &pmt)?;
    Ok(())
}
