//! Tests of the packets of sections, and of their cycle.
ghost use Rattle.std.specs.Prelude.{◌<◌};

use crate::compared::{are_so_many, got, same};
use std::process::Abort;
use ts_packet::Packet;
use ts_packetize::{Cycle, packets};
use ts_section::Section;

/// A short section of 100 bytes without the byte 0xFF.
fn short(rt: &(impl Abort + AllocGlobal), table_id: u8) -> Section
    requires { table_id < 255 }
{
    let body = [0x11; 97];
    got(rt, Section::short(rt.alloc(), table_id, true, &body))
}

/// One such section.
fn one(rt: &(impl Abort + AllocGlobal), table_id: u8) -> Vec<Section>
    requires { table_id < 255 }
{
    got(rt, vec![in rt.alloc(); short(rt, table_id)])
}

/// Two such sections, the first with the table_id 0x70.
fn two(rt: &(impl Abort + AllocGlobal), table_id: u8) -> Vec<Section>
    requires { table_id < 255 }
{
    let mut sections = one(rt, 0x70);
    got(rt, sections.push(short(rt, table_id)));
    sections
}

/// Checks a byte of a packet's payload.
fn has_byte(rt: &impl Abort, packet: &Packet, at: usize, wanted: u8) {
    same(rt, packet.payload().get(at).copied(), Some(wanted));
}

/// Checks the first packet of two short sections.
fn is_first(rt: &impl Abort, packet: &Packet) {
    same(rt, packet.unit_start(), true);
    has_byte(rt, packet, 0, 0);
    has_byte(rt, packet, 183, 0x11);
}

/// Checks the second one.
fn is_second(rt: &impl Abort, packet: &Packet) {
    same(rt, (packet.unit_start(), packet.counter()), (false, 1));
    has_byte(rt, packet, 16, 0x11);
    has_byte(rt, packet, 17, 0xFF);
}

/// Checks the packets of two short sections.
fn are_two_packets(rt: &impl Abort, list: &[Packet]) {
    are_so_many(rt, list.len(), 2);
    is_first(rt, &list[0]);
    is_second(rt, &list[1]);
}

#[test]
fn two_short_sections(rt: HostRuntime) {
    let sections = two(&rt, 0x71);
    let list = got(&rt, packets(rt.alloc(), 32, &sections));
    are_two_packets(&rt, list.as_slice());
}

/// Takes the next packet of the cycle with a counter, and checks its counter.
fn next(rt: &impl Abort, cycle: &mut Cycle, counter: u8) -> Packet
    requires { counter < 16 }
{
    let packet = got(rt, cycle.next(counter).ok_or("packet"));
    same(rt, packet.counter(), counter);
    packet
}

/// Checks the first packets of a cycle that is renewed by other sections after the first.
fn goes_on(rt: &impl Abort, cycle: &mut Cycle, other: Vec<Section>) {
    let _first = next(rt, cycle, 15);
    got(rt, cycle.renew(other));
    has_byte(rt, &next(rt, cycle, 0), 1, 0x11);
    has_byte(rt, &next(rt, cycle, 1), 1, 0x71);
}

#[test]
fn contents_come_with_the_next_cycle(rt: HostRuntime) {
    let mut cycle = got(&rt, Cycle::new(rt.alloc(), 32));
    same(&rt, cycle.next(0).is_none(), true);
    got(&rt, cycle.renew(two(&rt, 0x70)));
    goes_on(&rt, &mut cycle, one(&rt, 0x71));
}
