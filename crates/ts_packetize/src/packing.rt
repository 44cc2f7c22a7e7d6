//! The packets of a list of sections.

ghost use Rattle.std.specs.Prelude.{◌≡◌, ◌%◌, ◌<◌, false, length, IfOk, OnOk};
ghost use Rattle.std.specs.List.{AllByRecursion};
ghost use Rattle.ts_demux.specs.SectionsOfPid.{sections_of_pid};
ghost use Rattle.ts_section.specs.ValidSection.{IsSection};
ghost use Rattle.ts_packetize.specs.Packing.{next_step};
ghost use Rattle.ts_packetize.specs.Packing as packing;
ghost use Rattle.ts_packetize.specs.Packets.{packets_of, packet_with};
ghost use Rattle.ts_packetize.specs.Begun.{begun_by};

use crate::carrier::packet;
use crate::packet_list::PacketList;
use crate::room::{lay, missing, not_begun};
use std::alloc::{AllocError, Global};
use ts_packet::{NULL_PID, PAYLOAD_SIZE, Packet};
use ts_section::Section;

/// The bytes of a payload after its pointer_field.
const BEHIND_POINTER: usize = PAYLOAD_SIZE - 1;

/// The packets of the PID, below 8191, that carry the sections one after another (ISO/IEC 13818-1, 2.4.4).
/// A packet in which a section begins has payload_unit_start_indicator 1 and a pointer_field. One in which a section
/// only continues has neither; bytes of a section that fill all 183 after a pointer_field continue alone. The last
/// packet is stuffed with 0xFF. Continuity counters run from 0, modulo 16.
pub fn packets(alloc: Global, pid: u16, sections: &[Section]) -> Result<PacketList, AllocError>
    requires { pid < NULL_PID }
    ensures packed { IfOk result (λ list. list ≡ packets_of pid sections.now) }
    ensures again { IfOk result (λ list. sections_of_pid pid list ≡ sections.now) }
{
    let mut packets = Vec::new(alloc);
    let mut load = Vec::with_capacity(alloc, PAYLOAD_SIZE)?;
    let nothing: [u8; 0] = [];
    let mut rest: &[u8] = &nothing;
    let mut waiting = sections;
    while !is_done(rest, waiting) {
        let counter = next_counter(&packets);
        packets.push(next_packet(pid, counter, rest, waiting, &mut load)?)?;
        let behind = rest_after(rest, waiting);
        waiting = sections_after(rest, waiting);
        rest = behind;
    }
    Ok(PacketList::of(packets))
}

/// The next packet of the bytes that are left and the sections that wait. `load` is a buffer for its payload.
fn next_packet(
    pid: u16,
    counter: u8,
    rest: &[u8],
    waiting: &[Section],
    load: &mut Vec<u8>,
) -> Result<Packet, AllocError>
    requires pid { pid < NULL_PID }
    requires counter { counter < 16 }
    ensures packet { IfOk result (λ packet. packet ≡ packet_with pid counter (next_step rest.now waiting.now).load) }
    ensures valid { OnOk result (AllByRecursion (λ s. IsSection s) (begun_by rest.now waiting.now)) }
{
    if goes_on_alone(rest, waiting) {
        let piece = &rest[..rest.len().min(PAYLOAD_SIZE)];
        return Ok(packet(pid, counter, false, piece));
    }
    load.clear();
    load.push(rest.len() as u8)?;
    load.extend_from_slice(rest)?;
    lay(waiting, BEHIND_POINTER - rest.len(), load)?;
    Ok(packet(pid, counter, true, load))
}

/// The bytes that are left after the next packet.
fn rest_after<'a>(rest: &'a [u8], waiting: &'a [Section]) -> &'a [u8]
    ensures { result.now ≡ (next_step rest.now waiting.now).rest }
{
    if goes_on_alone(rest, waiting) {
        return &rest[rest.len().min(PAYLOAD_SIZE)..];
    }
    missing(&rest[rest.len()..], waiting, BEHIND_POINTER - rest.len())
}

/// The sections that wait after the next packet.
fn sections_after<'a>(rest: &[u8], waiting: &'a [Section]) -> &'a [Section]
    ensures { result.now ≡ (next_step rest.now waiting.now).sections }
{
    if goes_on_alone(rest, waiting) {
        return waiting;
    }
    not_begun(waiting, BEHIND_POINTER - rest.len())
}

/// Whether neither bytes nor sections are left.
fn is_done(rest: &[u8], waiting: &[Section]) -> bool
    ensures { result ≡ packing.is_done rest.now waiting.now }
{
    rest.is_empty() && waiting.is_empty()
}

/// Whether the bytes that are left continue alone in the next packet.
fn goes_on_alone(rest: &[u8], waiting: &[Section]) -> bool
    ensures alone { result ≡ packing.goes_on_alone rest.now waiting.now }
    ensures room { result ≡ false → length rest.now < 183 }
{
    waiting.is_empty() || rest.len() >= BEHIND_POINTER
}

/// The continuity counter after these packets.
fn next_counter(packets: &Vec<Packet>) -> u8
    ensures counter { result ≡ length packets.now.items % 16 }
    ensures range { result < 16 }
{
    (packets.len() % 16) as u8
}
