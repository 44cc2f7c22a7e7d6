//! What waits of a flow, and the packets that are made of it.

ghost use Rattle.std.specs.Prelude.{◌≡◌, ◌+◌, ◌%◌, ◌<◌, ◌==◌, ◌++◌, ◌∷◌, [], IfOk, OnOk, if◌then◌else◌};
ghost use Rattle.ts_packet.specs.Header.{has_payload_of, pid_of, scrambling_of, with_counter};
ghost use Rattle.plug_inject.specs.Counted as counting;
ghost use Rattle.section_flow.specs.FlowState.{Joins, Puts};

use crate::next::{is_done, next_packet};
use std::alloc::{AllocError, Global};
use std::collections::VecDeque;
use std::marker::Model;
use ts_packet::{NULL_PID, Packet};
use ts_section::Section;

/// The bytes that are left of a section that has begun, the sections that have not, and the counter of the next packet.
#[derive(Drop)]
pub(crate) struct Packing {
    pid: u16,
    rest: Vec<u8>,
    sections: VecDeque<Section>,
    counter: u8,
    /// A buffer for a payload.
    load: Vec<u8>,
}

impl Model for Packing {
    ghost use Rattle.std.specs.Prelude.{◌<◌};
    ghost use Rattle.ts_packet.specs.declared.numbers.TheConstants.{NULL_PID};
    ghost use Rattle.section_flow.specs.FlowState.{PackingState};

    ghost Value = { PackingState };

    ghost view = { λ p. record { pid = p.pid; rest = p.rest.items; sections = p.sections.items; counter = p.counter } };

    ghost invariant = { λ p. (p.pid < NULL_PID) × (p.counter < 16) };
}

impl Packing {
    /// Nothing waits.
    pub(crate) fn new(alloc: Global, pid: u16) -> Packing
        requires { pid < NULL_PID }
        ensures { result ≡ record { pid = pid; rest = []; sections = []; counter = 0 } }
    {
        Packing {
            pid,
            rest: Vec::new(alloc),
            sections: VecDeque::new(alloc),
            counter: 0,
            load: Vec::new(alloc),
        }
    }

    /// One more section waits.
    pub(crate) fn push(&mut self, section: Section) -> Result<(), AllocError>
        ensures { OnOk result (Joins self.old self.new (section ∷ [])) }
    {
        self.sections.push_back(section)?;
        Ok(())
    }

    /// What leaves in the place of a packet.
    pub(crate) fn put(&mut self, packet: &Packet) -> Result<Packet, AllocError>
        ensures { IfOk result (λ new. Puts self.old self.new packet.now new) }
    {
        if !is_on(self.pid, packet) {
            return Ok(*packet);
        }
        if !is_clear(packet) {
            let new = counted(self.counter, packet);
            self.counter = counter_behind(self.counter, packet);
            return Ok(new);
        }
        if is_done(&self.rest, &self.sections) {
            return Ok(Packet::null());
        }
        let new = next_packet(
            self.pid,
            self.counter,
            &mut self.rest,
            &mut self.sections,
            &mut self.load,
        )?;
        self.counter = (self.counter + 1) % 16;
        Ok(new)
    }
}

/// The packet with the counter that goes on; without a payload it has that of the packet before it.
fn counted(counter: u8, packet: &Packet) -> Packet
    requires { counter < 16 }
    ensures { result ≡ with_counter packet.now (counting.counter_behind counter packet.now) }
{
    let mut copy = *packet;
    if packet.has_payload() {
        copy.set_counter(counter);
    } else {
        copy.set_counter((counter + 15) % 16);
    }
    copy
}

/// The counter of the next packet with a payload, behind a packet.
fn counter_behind(counter: u8, packet: &Packet) -> u8
    requires { counter < 16 }
    ensures { result ≡ (if has_payload_of packet.now then (counter + 1) % 16 else counter) }
{
    if packet.has_payload() {
        (counter + 1) % 16
    } else {
        counter
    }
}

/// Whether a packet is on the PID.
fn is_on(pid: u16, packet: &Packet) -> bool
    ensures { result ≡ (pid_of packet.now == pid) }
{
    packet.pid() == pid
}

/// Whether a packet is not scrambled.
fn is_clear(packet: &Packet) -> bool
    ensures { result ≡ (scrambling_of packet.now == 0) }
{
    packet.scrambling() == 0
}
