//! The packets that `inject` puts in, one after another.
ghost use Rattle.std.specs.Prelude.{◌≡◌, ◌<◌, ◌+◌, ◌^◌, IfOk};
ghost use Rattle.plug_inject.specs.Contents.{contents_for, cycle, has_packets};
ghost use Rattle.plug_inject.specs.Schedule.{packet_after, row_after};
ghost use Rattle.plug_inject.specs.Supplied.{Keeps, contents_of};
ghost use Rattle.ts_packet.specs.declared.numbers.TheConstants.{NULL_PID};

use crate::group::groups;
use crate::schedule::Schedule;
use std::alloc::{AllocError, Global};
use std::marker::Model;
use ts_packet::{NULL_PID, Packet};
use ts_packetize::{PacketList, packets};
use ts_section::Section;

/// What is put in.
#[derive(Drop)]
pub enum Kind {
    /// The packets of all sections together, over and over.
    Cycle(PacketList),
    /// The sections by their groups.
    Groups(Schedule),
}

/// The packets that are put in, and how many were. Clauses see both.
#[derive(Drop)]
pub struct Supply {
    kind: Kind,
    given: u64,
}

impl Model for Supply {
    ghost use Rattle.plug_inject.specs.Supplied.{Keeps, Supplied, contents_of};

    ghost Value = { Supplied };

    ghost view = { λ s. record { contents = contents_of s.kind; given = s.given } };

    ghost invariant = { λ s. Keeps s.kind s.given };
}

impl Kind {
    /// What the pairs and the sections mean.
    fn new(
        alloc: Global,
        pid: u16,
        pairs: &[(u64, u64)],
        sections: &[Section],
    ) -> Result<Kind, AllocError>
        requires { pid < NULL_PID }
        ensures contents { IfOk result (λ kind. contents_of kind ≡ contents_for pid pairs.now sections.now) }
        ensures fresh { IfOk result (λ kind. Keeps kind 0) }
    {
        if pairs.is_empty() {
            return Ok(Kind::Cycle(packets(alloc, pid, sections)?));
        }
        let list = groups(alloc, pid, pairs, sections)?;
        Ok(Kind::Groups(Schedule::new(alloc, list)?))
    }

    /// Whether there is a packet to put in.
    fn has_packets(&self) -> bool
        ensures { result ≡ has_packets (contents_of self.now) }
    {
        match self {
            Kind::Cycle(list) => !list.as_slice().is_empty(),
            Kind::Groups(schedule) => !schedule.groups.as_slice().is_empty(),
        }
    }

    /// The packet that is put in after so many others.
    fn next(&mut self, number: u64) -> Option<Packet>
        requires met { Keeps self.old number }
        requires small { number < 2 ^ 63 }
        ensures row { result ≡ row_after (contents_of self.old) number }
        ensures met { Keeps self.new (number + 1) }
        ensures same { contents_of self.new ≡ contents_of self.old }
    {
        match self {
            Kind::Cycle(list) => cycle_row(list, number),
            Kind::Groups(schedule) => schedule.next(number),
        }
    }
}

/// The packet of a cycle that is put in after so many others.
fn cycle_row(list: &PacketList, number: u64) -> Option<Packet>
    ensures { result ≡ row_after (cycle list.now) number }
{
    let rows = list.as_slice();
    if rows.is_empty() {
        return None;
    }
    Some(rows[(number % rows.len() as u64) as usize])
}

impl Supply {
    /// The packets of the sections: all together, or where there are pairs by the groups of these.
    pub(crate) fn new(
        alloc: Global,
        pid: u16,
        pairs: &[(u64, u64)],
        sections: &[Section],
    ) -> Result<Supply, AllocError>
        requires { pid < NULL_PID }
        ensures { IfOk result (λ supply. supply
            ≡ record { contents = contents_for pid pairs.now sections.now; given = 0 }) }
    {
        let kind = Kind::new(alloc, pid, pairs, sections)?;
        Ok(Supply { kind, given: 0 })
    }

    /// Whether there is a packet to put in.
    #[inline]
    pub(crate) fn has_packets(&self) -> bool
        ensures { result ≡ has_packets self.now.contents }
    {
        self.kind.has_packets()
    }

    /// How many packets were put in.
    #[inline]
    pub(crate) fn given(&self) -> u64
        ensures { result ≡ self.now.given }
    {
        self.given
    }

    /// The packet that is put in next, with its counter.
    pub(crate) fn next(&mut self) -> Option<Packet>
        requires { self.old.given < 2 ^ 63 }
        ensures next { result ≡ packet_after self.old.contents self.old.given }
        ensures more { self.new ≡ record self.old { given = self.old.given + 1 } }
    {
        let number = self.given;
        let row = self.kind.next(number);
        self.given = number + 1;
        let mut packet = row?;
        packet.set_counter((number % 16) as u8);
        Some(packet)
    }
}
