//! The generator of a stream.
ghost use Rattle.std.specs.Prelude.{◌≡◌, ◌+◌, ◌<◌, ◌%◌, ◌^◌, IfOk, slice_index, slice_set};
ghost use Rattle.ts_packet.specs.Header.{with_counter};
ghost use Rattle.ts_packet.specs.Packet.{IsPacket};
ghost use Rattle.ts_testgen.specs.Counters.{AreTables};
ghost use Rattle.ts_testgen.specs.Generated.{generated, packet_by};

use crate::carriers::{clock_packet, payload_packet};
use crate::mixed::mixed;
use crate::rule::{Rule, component};
use crate::tables::Tables;
use std::alloc::{AllocError, Global};
use std::marker::Model;
use ts_packet::Packet;

/// Generates the packets of the stream of a seed, in order.
///
/// Contracts see the seed and the number of packets it has given.
#[derive(Drop)]
pub struct TestGen {
    seed: u64,
    given: u64,
    /// The continuity counter of the next packet on each PID, in the order of `counted_pids`.
    counters: [u8; 9],
    tables: Tables,
}

impl Model for TestGen {
    ghost use Rattle.std.specs.Prelude.{◌≡◌};
    ghost use Rattle.ts_testgen.specs.Counters.{counters_at, AreTables};
    ghost use Rattle.ts_testgen.specs.Generated.{Generator};

    ghost Value = { Generator };

    ghost view = { λ g. record { seed = g.seed; given = g.given } };

    ghost invariant = { λ g. (g.counters ≡ counters_at g.seed g.given)
        × AreTables g.tables.pat g.tables.first_pmt g.tables.second_pmt g.tables.sdt };
}

impl TestGen {
    /// A generator that has given no packet. It allocates while it packs the tables, and keeps nothing allocated.
    pub fn new(alloc: Global, seed: u64) -> Result<TestGen, AllocError>
        ensures { IfOk result (λ generator. generator ≡ record { seed = seed; given = 0 }) }
    {
        Ok(TestGen {
            seed,
            given: 0,
            counters: [0; 9],
            tables: Tables::new(alloc)?,
        })
    }

    /// The next packet, of at most 2^60. Allocates nothing.
    pub fn next_packet(&mut self) -> Packet
        requires { self.old.given < 2 ^ 60 }
        ensures packet { result ≡ generated self.old.seed self.old.given }
        ensures valid { IsPacket result }
        ensures next { self.new ≡ record { seed = self.old.seed; given = self.old.given + 1 } }
    {
        let r = mixed(self.seed, self.given);
        let rule = Rule::at(self.given);
        let place = rule.place(r);
        let counter = self.counters[place];
        let packet = packet_by(&self.tables, rule, r, self.given, counter);
        count(&mut self.counters, place);
        self.given += 1;
        packet
    }
}

/// A rule's packet with this continuity counter; `r` is the mix of the number `i`.
fn packet_by(tables: &Tables, rule: Rule, r: u64, i: u64, counter: u8) -> Packet
    requires tables { AreTables tables.now.pat tables.now.first_pmt tables.now.second_pmt tables.now.sdt }
    requires counter { counter < 16 }
    ensures packet { result ≡ packet_by rule r i counter }
    ensures valid { IsPacket result }
{
    match rule {
        Rule::Pat => counted(tables.pat, counter),
        Rule::FirstPmt => counted(tables.first_pmt, counter),
        Rule::SecondPmt => counted(tables.second_pmt, counter),
        Rule::Sdt => counted(tables.sdt, counter),
        Rule::Clock => clock_packet(r, i, counter),
        Rule::Null => Packet::null(),
        Rule::Payload => payload_packet(r, component(r), counter),
    }
}

/// The packet with this continuity counter.
fn counted(packet: Packet, counter: u8) -> Packet
    requires { counter < 16 }
    ensures row { result ≡ with_counter packet counter }
    ensures valid { IsPacket result }
{
    let mut packet = packet;
    packet.set_counter(counter);
    packet
}

/// Counts one more packet at a place of the counters, modulo 16.
fn count(counters: &mut [u8; 9], place: usize)
    requires { place < 9 }
    ensures { counters.new ≡ slice_set counters.old place ((slice_index counters.old place + 1) % 16) }
{
    counters[place] = counters[place].wrapping_add(1) % 16;
}
