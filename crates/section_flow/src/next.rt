//! The next packet of what waits.

ghost use Rattle.std.specs.Prelude.{◌≡◌, ◌<◌, ◌-◌, ◌≤◌, ◌++◌, ◌∷◌, true, false, length, take, drop, IfOk, OnOk};
ghost use Rattle.ts_packetize.specs.Packing.{joined, filled, missing, not_begun, next_step};
ghost use Rattle.ts_packetize.specs.Packing as packing;
ghost use Rattle.ts_packetize.specs.Packets.{packet_with};

use crate::carrier::packet;
use crate::room::lay;
use std::alloc::AllocError;
use std::collections::VecDeque;
use ts_packet::{NULL_PID, PAYLOAD_SIZE, Packet};
use ts_section::Section;

/// The bytes of a payload after its pointer_field.
const BEHIND_POINTER: usize = PAYLOAD_SIZE - 1;

/// The next packet of the bytes that are left of a section and of the sections after it; what is left after it is left
/// in them. `load` is a buffer for its payload.
pub(crate) fn next_packet(
    pid: u16,
    counter: u8,
    rest: &mut Vec<u8>,
    sections: &mut VecDeque<Section>,
    load: &mut Vec<u8>,
) -> Result<Packet, AllocError>
    requires pid { pid < NULL_PID }
    requires counter { counter < 16 }
    ensures packet { IfOk result (λ packet. packet ≡ packet_with pid counter (next_step rest.old.items sections.old.items).load) }
    ensures rest { OnOk result (rest.new.items ≡ (next_step rest.old.items sections.old.items).rest) }
    ensures sections { OnOk result (sections.new.items ≡ (next_step rest.old.items sections.old.items).sections) }
{
    if goes_on_alone(rest, sections) {
        return Ok(go_on(pid, counter, rest));
    }
    let new = begin(pid, counter, rest, sections, load)?;
    Ok(new)
}

/// A packet in which the bytes that are left continue alone.
fn go_on(pid: u16, counter: u8, rest: &mut Vec<u8>) -> Packet
    requires pid { pid < NULL_PID }
    requires counter { counter < 16 }
    ensures packet { result ≡ packet_with pid counter (record { unit_start = false; payload = filled rest.old.items }) }
    ensures rest { rest.new.items ≡ drop 184 rest.old.items }
{
    let size = rest.len().min(PAYLOAD_SIZE);
    let packet = packet(pid, counter, false, &rest[..size]);
    drop_front(rest, size);
    packet
}

/// Drops the first bytes.
fn drop_front(bytes: &mut Vec<u8>, count: usize)
    requires { count ≤ length bytes.old.items }
    ensures { bytes.new.items ≡ drop count bytes.old.items }
{
    if count == bytes.len() {
        bytes.clear();
    } else {
        bytes.drain(..count);
    }
}

/// A packet in which a section begins, after the bytes that are left of the one before.
fn begin(
    pid: u16,
    counter: u8,
    rest: &mut Vec<u8>,
    sections: &mut VecDeque<Section>,
    load: &mut Vec<u8>,
) -> Result<Packet, AllocError>
    requires pid { pid < NULL_PID }
    requires counter { counter < 16 }
    requires room { length rest.old.items < 183 }
    ensures packet { IfOk result (λ packet. packet ≡ packet_with pid counter (record {
      unit_start = true;
      payload = filled (length rest.old.items ∷ take 183 (rest.old.items ++ joined sections.old.items));
    })) }
    ensures rest { OnOk result (rest.new.items ≡ missing (183 - length rest.old.items) sections.old.items) }
    ensures sections { OnOk result (sections.new.items ≡ not_begun (183 - length rest.old.items) sections.old.items) }
{
    let room = BEHIND_POINTER - rest.len();
    load.clear();
    load.push(rest.len() as u8)?;
    load.extend_from_slice(rest)?;
    rest.clear();
    lay(room, sections, rest, load)?;
    Ok(packet(pid, counter, true, load))
}

/// Whether the bytes that are left continue alone in the next packet.
fn goes_on_alone(rest: &Vec<u8>, sections: &VecDeque<Section>) -> bool
    ensures alone { result ≡ packing.goes_on_alone rest.now.items sections.now.items }
    ensures room { result ≡ false → length rest.now.items < 183 }
{
    sections.is_empty() || rest.len() >= BEHIND_POINTER
}

/// Whether neither bytes nor sections are left.
pub(crate) fn is_done(rest: &Vec<u8>, sections: &VecDeque<Section>) -> bool
    ensures { result ≡ packing.is_done rest.now.items sections.now.items }
{
    rest.is_empty() && sections.is_empty()
}
