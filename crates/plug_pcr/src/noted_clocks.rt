//! Packets with a PCR that are not counted yet, and the faults among them.
//!
//! They are in two buffers of the run's size. Below the mark PCRs are a number and faults are lines, which grow with
//! the stream, so the steps are not preallocated, as those of `continuity`.
use crate::clock_fault::ClockFault;
use crate::clock_note::ClockNote;
use circular_buffer::HeapCircularBuffer;
use plugin_notes::{drop_below, push_lines_below, push_note};
use plugin_trait::Line;
use std::alloc::{AllocError, Global};

/// Notes on the packets with a PCR from the greatest mark on, and on the faults among them.
#[derive(Drop)]
pub struct NotedClocks {
    met: HeapCircularBuffer<ClockNote>,
    faults: HeapCircularBuffer<ClockFault>,
}

impl NotedClocks {
    ghost use Rattle.std.specs.Prelude.{◌≡◌, ◌≤◌, ◌⊎◌, ◌+◌, ◌++◌, ◌∷◌, [], IfOk, IsErr, OnOk, OnErr, length, map, nat_lt, option_to_list};
    ghost use Rattle.std.specs.List.{take_while};
    ghost use Rattle.plugin_notes.specs.NotesKept.{TakesBelow};
    ghost use Rattle.plug_pcr.specs.ClockFaults.{line_of_fault, place_of_fault};
    ghost use Rattle.plug_pcr.specs.ClockNotes.{place_of_note};

    /// Nothing is noted. It allocates room for notes on as many packets as the buffer holds.
    pub fn new(alloc: Global, buffer: usize) -> Result<NotedClocks, AllocError>
        ensures met { IfOk result (λ noted. noted.met.items ≡ []) }
        ensures faults { IfOk result (λ noted. noted.faults.items ≡ []) }
        ensures reserved_clocks { IfOk result (λ noted. noted.met.capacity ≡ buffer) }
        ensures reserved_faults { IfOk result (λ noted. noted.faults.capacity ≡ buffer) }
    {
        Ok(NotedClocks {
            met: HeapCircularBuffer::with_capacity(alloc, buffer)?,
            faults: HeapCircularBuffer::with_capacity(alloc, buffer)?,
        })
    }

    /// Notes a packet with a PCR, and its fault, if it has one. If the room is used up it returns `AllocError`, and
    /// the notes are unchanged.
    pub fn push(&mut self, note: ClockNote, fault: Option<ClockFault>) -> Result<(), AllocError>
        ensures met { OnOk result (self.new.met.items ≡ self.old.met.items ++ note ∷ []) }
        ensures faults { OnOk result (self.new.faults.items ≡ self.old.faults.items ++ option_to_list fault) }
        ensures err { OnErr result ((self.new.met.items ≡ self.old.met.items) × (self.new.faults.items ≡ self.old.faults.items)) }
        ensures full { IsErr result → (self.old.met.capacity ≤ length self.old.met.items) ⊎ (self.old.faults.capacity ≤ length self.old.faults.items) }
        ensures reserved_clocks { self.new.met.capacity ≡ self.old.met.capacity }
        ensures reserved_faults { self.new.faults.capacity ≡ self.old.faults.capacity }
    {
        if self.faults.len() >= self.faults.capacity() {
            return Err(AllocError);
        }
        push_note(&mut self.met, note)?;
        if let Some(fault) = fault {
            self.faults.push_back(fault);
        }
        Ok(())
    }

    /// Appends the lines of the faults below a position. Out of memory the lines are unchanged.
    pub fn push_lines_below(&self, lines: &mut Vec<Line>, mark: u64) -> Result<(), AllocError>
        ensures ok { OnOk result (lines.new.items ≡ lines.old.items
            ++ map line_of_fault (take_while (λ fault. nat_lt (place_of_fault fault) mark) self.now.faults.items)) }
        ensures err { OnErr result (lines.new.items ≡ lines.old.items) }
    {
        push_lines_below(lines, &self.faults, mark)
    }

    /// Removes the notes below a position, and returns how many packets with a PCR they were, and how many faults.
    pub fn drop_below(&mut self, mark: u64) -> (u64, u64)
        ensures met { TakesBelow place_of_note mark self.old.met.items self.new.met.items }
        ensures faults { TakesBelow place_of_fault mark self.old.faults.items self.new.faults.items }
        ensures met_count { result.0 + length self.new.met.items ≡ length self.old.met.items }
        ensures fault_count { result.1 + length self.new.faults.items ≡ length self.old.faults.items }
        ensures reserved_clocks { self.new.met.capacity ≡ self.old.met.capacity }
        ensures reserved_faults { self.new.faults.capacity ≡ self.old.faults.capacity }
    {
        (
            drop_below(&mut self.met, mark),
            drop_below(&mut self.faults, mark),
        )
    }
}
