//! The delay line of `compact`: a block of packets is collected while the block before it is output.
//!
//! Two rings, for null packets and for all others, so that no packet is looked for or moved inside: of the others a
//! number says how many are of the block that is given, and those of the block after come after them. One window's room
//! would do, since both rings together never have more; with two rings of the whole window no packet waits for a place.
ghost use Rattle.std.specs.Prelude.{◌≡◌, IfOk, []};
ghost use Rattle.plug_window.specs.BlockState.{StandsFor};

use circular_buffer::HeapCircularBuffer;
use std::alloc::{AllocError, Global};
use ts_packet::{Labelled, NULL_PID};

/// The packets of the block that is output and of the one that is collected, null packets apart.
///
/// At most as many packets are kept as a block has, so each of the two queues has room for one block.
#[derive(Drop)]
pub struct BlockLine {
    /// Those on other PIDs; those of the block that is output come first.
    packets: HeapCircularBuffer<Labelled>,
    /// The null packets; those of the block that is output come first.
    nulls: HeapCircularBuffer<Labelled>,
    /// How many packets a block has.
    window: usize,
    /// How many packets of the next block are collected.
    collected: usize,
    /// How many of `packets` belong to the block that is output.
    left: usize,
    /// Whether a block is complete, so that a packet is output with each one that comes in.
    gives: bool,
}

impl BlockLine {
    ghost use Rattle.std.specs.Prelude.{◌≡◌, ◌<◌, ◌≤◌, List, [], ◌∷◌, ◌++◌, IfOk, length};
    ghost use Rattle.ts_packet.specs.declared.labelled.Labelled.{Labelled as Row};
    ghost use Rattle.plug_window.specs.CompactRule.{is_null, compacted};
    ghost use Rattle.plug_window.specs.BlockState.{StandsFor, StandsForSome, HasSize, state_of, first_of, shifted, filled, counted};

    /// A line without packets. All its memory is allocated here.
    pub fn new(alloc: Global, window: usize) -> Result<BlockLine, AllocError>
        requires { 1 ≤ window }
        ensures fresh { IfOk result (λ line. StandsFor line []) }
        ensures window { IfOk result (λ line. line.window ≡ window) }
    {
        Ok(BlockLine {
            packets: HeapCircularBuffer::with_capacity(alloc, window)?,
            nulls: HeapCircularBuffer::with_capacity(alloc, window)?,
            window,
            collected: 0,
            left: 0,
            gives: false,
        })
    }

    /// Takes a packet in, and returns the one that takes its place, if a block was complete before it. Allocates
    /// nothing.
    #[inline]
    pub fn turn(&mut self, came: Labelled) -> Option<Labelled>
        requires { StandsForSome self.old }
        ensures given { (rows : List Row) → StandsFor self.old rows → result ≡ compacted is_null self.old.window rows came }
        ensures stands { (rows : List Row) → StandsFor self.old rows → StandsFor self.new (rows ++ came ∷ []) }
        ensures window { self.new.window ≡ self.old.window }
    {
        let given = self.give();
        self.put(came);
        self.count();
        given
    }

    // Takes the next packet out of the block that is output: one on another PID while it has any, then a null packet.
    #[inline]
    fn give(&mut self) -> Option<Labelled>
        ensures given { result ≡ first_of (state_of self.old) }
        ensures state { state_of self.new ≡ shifted (state_of self.old) }
        ensures size { HasSize self.old self.new }
    {
        if !self.gives {
            return None;
        }
        if self.left > 0 {
            self.left -= 1;
            return self.packets.pop_front();
        }
        self.nulls.pop_front()
    }

    // Appends a packet to those of its kind.
    #[inline]
    fn put(&mut self, came: Labelled)
        requires packets { length self.old.packets.items < self.old.packets.capacity }
        requires nulls { length self.old.nulls.items < self.old.nulls.capacity }
        ensures state { state_of self.new ≡ filled is_null came (state_of self.old) }
        ensures size { HasSize self.old self.new }
    {
        if came.packet.pid() == NULL_PID {
            self.nulls.push_back(came);
        } else {
            self.packets.push_back(came);
        }
    }

    // Counts a packet of the block that is collected. A complete block is the next one that is output.
    #[inline]
    fn count(&mut self)
        requires { self.old.collected < self.old.window }
        ensures state { state_of self.new ≡ counted self.old.window (state_of self.old) }
        ensures size { HasSize self.old self.new }
    {
        self.collected += 1;
        if self.collected == self.window {
            self.collected = 0;
            self.left = self.packets.len();
            self.gives = true;
        }
    }
}
