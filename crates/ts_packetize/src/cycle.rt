//! Packets given out in cycles.

ghost use Rattle.std.specs.Prelude.{◌≡◌, ◌<◌, [], false, length, IsTrue, IfOk, IfNone, OnOk, OnErr};
ghost use Rattle.ts_packet.specs.Header.{with_counter};
ghost use Rattle.ts_packetize.specs.Packets.{packets_of};
ghost use Rattle.ts_packetize.specs.Cycle.{due, GivesNext};

use crate::packet_list::PacketList;
use crate::packing::packets;
use std::alloc::{AllocError, Global};
use std::marker::Model;
use ts_packet::{NULL_PID, Packet};
use ts_section::Section;

/// The packets of contents, given out one by one, over and over. New contents begin with the next cycle.
///
/// Clauses see the PID, the packets that are left of the current cycle, and the packets of the next.
#[derive(Drop)]
pub struct Cycle {
    pid: u16,
    current: PacketList,
    place: usize,
    renewed: Option<PacketList>,
}

impl Model for Cycle {
    ghost use Rattle.std.specs.Prelude.{◌<◌, ◌≤◌, length, drop, unwrap_or};
    ghost use Rattle.ts_packet.specs.declared.numbers.TheConstants.{NULL_PID};
    ghost use Rattle.ts_packetize.specs.Cycle.{CycleState};

    ghost Value = { CycleState };

    ghost view = { λ c. record { pid = c.pid; left = drop c.place c.current; contents = unwrap_or c.renewed c.current } };

    ghost invariant = { λ c. c.pid < NULL_PID };
}

impl Cycle {
    /// A cycle of the PID, below 8191, with no contents.
    pub fn new(alloc: Global, pid: u16) -> Result<Cycle, AllocError>
        requires { pid < NULL_PID }
        ensures { IfOk result (λ cycle. cycle ≡ record { pid = pid; left = []; contents = [] }) }
    {
        Ok(Cycle {
            pid,
            current: PacketList::of(Vec::new(alloc)),
            place: 0,
            renewed: None,
        })
    }

    /// Sets the contents from the next cycle on. After an `AllocError` they are as before.
    pub fn renew(&mut self, sections: Vec<Section>) -> Result<(), AllocError>
        ensures renewed { OnOk result (self.new ≡ record self.old { contents = packets_of self.old.pid sections.items }) }
        ensures err { OnErr result (self.new ≡ self.old) }
    {
        let alloc = *sections.allocator();
        let list = packets(alloc, self.pid, sections.as_slice())?;
        self.renewed = Some(list);
        Ok(())
    }

    /// Whether the next packet would begin a new cycle.
    pub fn is_over(&self) -> bool
        ensures over { IsTrue result → self.now.left ≡ [] }
        ensures runs { result ≡ false → 0 < length self.now.left }
    {
        self.place >= self.current.as_slice().len()
    }

    /// The next packet, with this continuity counter, below 16; none exactly where a new cycle would begin and the
    /// contents have no packet. Allocates nothing.
    pub fn next(&mut self, counter: u8) -> Option<Packet>
        requires { counter < 16 }
        ensures next { GivesNext self.old self.new counter result }
        ensures none { IfNone result (due self.old.left self.old.contents ≡ []) }
    {
        self.begin_where_over();
        let packets = self.current.as_slice();
        if self.place >= packets.len() {
            return None;
        }
        let packet = with_counter(&packets[self.place], counter);
        self.place += 1;
        Some(packet)
    }

    /// Begins the next cycle where nothing is left of the current one.
    fn begin_where_over(&mut self)
        ensures left { self.new.left ≡ due self.old.left self.old.contents }
        ensures contents { self.new.contents ≡ self.old.contents }
        ensures pid { self.new.pid ≡ self.old.pid }
    {
        if self.place < self.current.as_slice().len() {
            return;
        }
        if let Some(list) = self.renewed.take() {
            self.current = list;
        }
        self.place = 0;
    }
}

/// The packet with another continuity counter.
fn with_counter(packet: &Packet, counter: u8) -> Packet
    requires { counter < 16 }
    ensures { result ≡ with_counter packet.now counter }
{
    let mut copy = *packet;
    copy.set_counter(counter);
    copy
}
