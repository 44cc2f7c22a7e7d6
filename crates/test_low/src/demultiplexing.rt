//! Tests of the demultiplexer and of the assembly of tables.
ghost use Rattle.std.specs.Prelude.{◌<◌, ◌≤◌};

use crate::compared::{are_so_many, got, same};
use std::process::Abort;
use ts_demux::{Assembly, Demux};
use ts_packet::Packet;
use ts_packetize::packets;
use ts_section::{LongHead, Section};

const PID: u16 = 256;

/// The PAT section of transport stream 1, version 1, with service 1 on PID 4096, and this section_number of 0 to 1.
fn pat(rt: &(impl Abort + AllocGlobal), number: u8) -> Section
    requires { number ≤ 1 }
{
    let head = LongHead {
        table_id: 0,
        private: false,
        extension: 1,
        version: 1,
        current: true,
        number,
        last: 1,
    };
    got(
        rt,
        Section::long(rt.alloc(), head, &[0x00, 0x01, 0xF0, 0x00]),
    )
}

/// A packet in which the short section 70 30 02 AA BB begins three bytes before the end.
fn begun() -> Packet {
    let mut packet = Packet::null();
    packet.set_pid(PID);
    packet.set_counter(15);
    packet.set_unit_start(true);
    packet.put_payload(4, &[180]);
    packet.put_payload(185, &[0x70, 0x30, 0x02]);
    packet
}

/// The packet after it.
fn ended() -> Packet {
    let mut packet = Packet::null();
    packet.set_pid(PID);
    packet.put_payload(4, &[0xAA, 0xBB]);
    packet
}

/// Checks how many sections a packet completes.
fn completes(rt: &impl Abort, demux: &mut Demux, packet: &Packet, wanted: usize) {
    same(rt, got(rt, demux.feed(packet)), wanted);
}

/// How many bytes the next section has; `None` without one.
fn next_len(demux: &mut Demux) -> Option<usize> {
    Some(demux.next_section()?.bytes().len())
}

/// Feeds the packets of a section, the first of them twice.
fn take_both(rt: &impl Abort, demux: &mut Demux) {
    let first = begun();
    completes(rt, demux, &first, 0);
    completes(rt, demux, &first, 0);
    completes(rt, demux, &ended(), 1);
}

#[test]
fn section_over_two_packets(rt: HostRuntime) {
    let mut demux = got(&rt, Demux::new(rt.alloc(), PID));
    take_both(&rt, &mut demux);
    same(&rt, next_len(&mut demux), Some(5));
    same(&rt, next_len(&mut demux), None);
}

/// Checks how many sections the table has that a section completes; `None` if it completes none.
fn gives(rt: &impl Abort, assembly: &mut Assembly, section: Section, wanted: Option<usize>) {
    let table = got(rt, assembly.add(0, section));
    same(rt, table.map(|table| table.sections().len()), wanted);
}

#[test]
fn table_of_two_sections(rt: HostRuntime) {
    let mut assembly = got(&rt, Assembly::new(rt.alloc()));
    gives(&rt, &mut assembly, pat(&rt, 1), None);
    gives(&rt, &mut assembly, pat(&rt, 0), Some(2));
}

/// A long section of 200 bytes.
fn long_section(rt: &(impl Abort + AllocGlobal)) -> Section {
    let head = LongHead {
        table_id: 0x80,
        private: true,
        extension: 1,
        version: 0,
        current: true,
        number: 0,
        last: 0,
    };
    let body = [0x11; 188];
    got(rt, Section::long(rt.alloc(), head, &body))
}

/// Checks how many sections a packet with this continuity counter completes.
fn counts(rt: &impl Abort, demux: &mut Demux, packet: &Packet, counter: u8, wanted: usize)
    requires { counter < 16 }
{
    let mut counted = *packet;
    counted.set_counter(counter);
    completes(rt, demux, &counted, wanted);
}

/// Checks that a jump between two packets gives their section up.
fn jump(rt: &(impl Abort + AllocGlobal), list: &[Packet]) {
    are_so_many(rt, list.len(), 2);
    let mut demux = got(rt, Demux::new(rt.alloc(), PID));
    counts(rt, &mut demux, &list[0], 3, 0);
    counts(rt, &mut demux, &list[1], 5, 0);
}

/// Checks that the section is given once where the first packet comes twice.
fn come_twice(rt: &(impl Abort + AllocGlobal), list: &[Packet]) {
    are_so_many(rt, list.len(), 2);
    let mut demux = got(rt, Demux::new(rt.alloc(), PID));
    counts(rt, &mut demux, &list[0], 3, 0);
    counts(rt, &mut demux, &list[0], 3, 0);
    counts(rt, &mut demux, &list[1], 4, 1);
}

/// A jump gives the section up; a packet that comes twice counts once.
#[test]
fn counters_of_a_section(rt: HostRuntime) {
    let sections = [long_section(&rt)];
    let list = got(&rt, packets(rt.alloc(), PID, &sections));
    jump(&rt, list.as_slice());
    come_twice(&rt, list.as_slice());
}

/// A PAT of one service.
static ONE_SERVICE: [u8; 16] = [
    0x00, 0xB0, 0x0D, 0x00, 0x01, 0xC1, 0x00, 0x00, 0x00, 0x01, 0xF0, 0x00, 0x2A, 0xB1, 0x04, 0xB2,
];

#[test]
fn a_table_is_given_once(rt: HostRuntime) {
    let section = got(&rt, Section::parse(rt.alloc(), &ONE_SERVICE));
    let copied = got(&rt, section.copy());
    let mut assembly = got(&rt, Assembly::new(rt.alloc()));
    gives(&rt, &mut assembly, copied, Some(1));
    gives(&rt, &mut assembly, section, None);
}

/// A packet of PID 0 whose payload begins so.
fn packet_of(counter: u8, start: bool, front: &[u8; 4]) -> Packet
    requires { counter < 16 }
{
    let mut packet = Packet::null();
    packet.set_pid(0);
    packet.set_unit_start(start);
    packet.set_counter(counter);
    packet.put_payload(4, front);
    packet
}

/// How many sections one packet of PID 0 completes that has payload_unit_start_indicator and this pointer_field,
/// followed by a section of five bytes, and then 0xFF.
fn completed(rt: &(impl Abort + AllocGlobal), pointer: u8) -> usize {
    let mut packet = packet_of(0, true, &[pointer, 0x70, 0x30, 0x02]);
    packet.put_payload(8, &[0xAA, 0xBB]);
    let mut demux = got(rt, Demux::new(rt.alloc(), 0));
    got(rt, demux.feed(&packet))
}

/// Pointers, and how many sections their packet completes.
static POINTERS: [(u8, usize); 4] = [(0, 1), (183, 0), (184, 0), (255, 0)];

/// The pointers. The content of a `static` is written into each function that names it.
fn pointers() -> &'static [(u8, usize)] {
    &POINTERS
}

/// The pointer_field of packets that begin a section: values within the payload, and values beyond it. The payload has
/// 184 bytes, including the pointer_field.
#[test]
fn pointers_beyond_the_payload(rt: HostRuntime) {
    for (pointer, wanted) in pointers() {
        let found = completed(&rt, *pointer);
        same(&rt, (*pointer, found), (*pointer, *wanted));
    }
}

/// Checks how many sections two packets complete, of which the first has this pointer_field and the other no
/// payload_unit_start_indicator. Before them came the first 183 bytes of a section of 366; all other bytes are 0xFF.
fn complete_after(rt: &(impl Abort + AllocGlobal), pointer: u8, wanted: usize) {
    let mut demux = got(rt, Demux::new(rt.alloc(), 0));
    completes(
        rt,
        &mut demux,
        &packet_of(0, true, &[0, 0x70, 0x71, 0x6B]),
        0,
    );
    let front = [pointer, 0xFF, 0xFF, 0xFF];
    completes(rt, &mut demux, &packet_of(1, true, &front), wanted);
    completes(rt, &mut demux, &packet_of(2, false, &front), 0);
}

/// After pointer_field 183 no section begins, and the bytes before that place end the section. One more is beyond the
/// payload, and the section is discarded.
#[test]
fn the_last_pointer_and_the_one_beyond(rt: HostRuntime) {
    complete_after(&rt, 183, 1);
    complete_after(&rt, 184, 0);
}
