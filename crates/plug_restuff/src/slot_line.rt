//! The queue of packets that wait for a slot.
ghost use Rattle.std.specs.Prelude.{◌≡◌, IfOk, []};
ghost use Rattle.plug_restuff.specs.RestuffSettings.{IsValidRestuff};
ghost use Rattle.plug_restuff.specs.RestuffState.{StandsFor, conf_of};

use crate::moved_clock::moved_row;
use crate::restuff_conf::RestuffConf;
use crate::slot_count::SlotCount;
use crate::waiting::Waiting;
use circular_buffer::HeapCircularBuffer;
use std::alloc::{AllocError, Global};
use ts_packet::{Labelled, Labels, NULL_PID, Packet};

/// The packets that wait for a slot, and the present cell.
#[derive(Drop)]
pub struct SlotLine {
    /// Which cells are slots.
    count: SlotCount,
    /// The packets that wait, that which has waited longest first; as many may wait as the buffer holds.
    waiting: HeapCircularBuffer<Waiting>,
}

impl SlotLine {
    ghost use Rattle.std.specs.Prelude.{◌≡◌, ◌<◌, ◌+◌, List, [], ◌∷◌, ◌++◌, IfOk, false, length, drop, slice_get};
    ghost use Rattle.chain_model.specs.declared.positions.TheConstants.{POSITION_LIMIT};
    ghost use Rattle.ts_packet.specs.declared.labelled.Labelled.{Labelled as Row};
    ghost use Rattle.plug_restuff.specs.RestuffRule.{filled, given, is_null, is_refused, with_came};
    ghost use Rattle.plug_restuff.specs.RestuffSettings.{IsValidRestuff};
    ghost use Rattle.plug_restuff.specs.RestuffState.{Counts, StandsFor, StandsForSome, conf_of};

    /// A line without packets, at the first cell. All its memory is allocated here.
    pub fn new(alloc: Global, conf: &RestuffConf) -> Result<SlotLine, AllocError>
        requires { IsValidRestuff conf.now }
        ensures fresh { IfOk result (λ line. StandsFor line []) }
        ensures conf { IfOk result (λ line. conf_of line ≡ conf.now) }
    {
        Ok(SlotLine {
            count: SlotCount::new(conf.from, conf.to),
            waiting: HeapCircularBuffer::with_capacity(alloc, conf.window as usize)?,
        })
    }

    /// Whether a packet cannot wait: it is no null packet, and as many wait as may.
    #[inline]
    pub fn refuses(&self, came: &Labelled) -> bool
        ensures { result ≡ is_refused self.now.waiting.capacity self.now.waiting.items came.now }
    {
        came.packet.pid() != NULL_PID && self.waiting.len() >= self.waiting.capacity()
    }

    /// Takes the packet of the present cell in, and returns what is put in this cell; `None` where it is no slot. Then
    /// the next cell is present. Allocates nothing.
    #[inline]
    pub fn turn(&mut self, came: Labelled) -> Option<Labelled>
        requires stands { StandsForSome self.old }
        requires in_range { self.old.count.cell < POSITION_LIMIT }
        requires waits { is_refused self.old.waiting.capacity self.old.waiting.items came ≡ false }
        ensures given { (rows : List Row) → StandsFor self.old rows → result ≡ given (conf_of self.old) rows came }
        ensures stands { (rows : List Row) → StandsFor self.old rows → StandsFor self.new (rows ++ came ∷ []) }
        ensures conf { conf_of self.new ≡ conf_of self.old }
    {
        let slot = self.count.slots;
        self.put(came);
        if !self.count.step() {
            return None;
        }
        Some(self.give(slot))
    }

    // Lets the packet of the present cell wait, unless it is a null packet.
    #[inline]
    fn put(&mut self, came: Labelled)
        requires waits { is_refused self.old.waiting.capacity self.old.waiting.items came ≡ false }
        ensures waiting { self.new.waiting.items ≡ with_came self.old.count.cell came self.old.waiting.items }
        ensures capacity { self.new.waiting.capacity ≡ self.old.waiting.capacity }
        ensures count { self.new.count ≡ self.old.count }
    {
        if came.packet.pid() == NULL_PID {
            return;
        }
        self.waiting.push_back(Waiting {
            cell: self.count.cell,
            row: came,
        });
    }

    // What fills the slot of this number.
    #[inline]
    fn give(&mut self, slot: u64) -> Labelled
        requires { Counts self.old.count }
        ensures given { result ≡ filled (conf_of self.old) slot (slice_get self.old.waiting.items 0) }
        ensures waiting { self.new.waiting.items ≡ drop 1 self.old.waiting.items }
        ensures capacity { self.new.waiting.capacity ≡ self.old.waiting.capacity }
        ensures count { self.new.count ≡ self.old.count }
    {
        match self.waiting.pop_front() {
            Some(first) => moved_row(self.count.from, self.count.to, slot, first),
            None => Labelled {
                packet: Packet::null(),
                labels: Labels::none(),
            },
        }
    }
}
