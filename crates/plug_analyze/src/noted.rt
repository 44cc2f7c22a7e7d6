//! Notes on packets that may not count yet, and the counts of those that do.
use crate::note::Note;
use crate::totals::Totals;
use circular_buffer::HeapCircularBuffer;
use plugin_notes::{pop_below, push_note};
use std::alloc::{AllocError, Global};

/// Notes on the packets from the greatest mark on, and the counts of those below it.
#[derive(Drop)]
pub struct Noted {
    totals: Totals,
    notes: HeapCircularBuffer<Note>,
}

impl Noted {
    ghost use Rattle.std.specs.Prelude.{◌≡◌, ◌≤◌, ◌++◌, ◌∷◌, [], IfOk, IsErr, OnOk, length};
    ghost use Rattle.plugin_notes.specs.NotesKept.{CanFold, Folds};
    ghost use Rattle.plug_analyze.specs.AnalyzeNotes.{pid_in, place_of};
    ghost use Rattle.plug_analyze.specs.TotalsOf.{AreTotals};

    /// Nothing was noted. Allocates 320 KiB, and room for notes on as many packets as the buffer holds.
    pub fn new(alloc: Global, buffer: usize) -> Result<Noted, AllocError>
        ensures totals { IfOk result (λ noted. AreTotals noted.totals []) }
        ensures notes { IfOk result (λ noted. noted.notes.items ≡ []) }
        ensures reserved { IfOk result (λ noted. noted.notes.capacity ≡ buffer) }
    {
        Ok(Noted {
            totals: Totals::new(alloc)?,
            notes: HeapCircularBuffer::with_capacity(alloc, buffer)?,
        })
    }

    /// Appends the note on a packet. If the buffer is full it returns `AllocError`, and no note is lost.
    #[inline]
    pub fn push(&mut self, note: Note) -> Result<(), AllocError>
        ensures notes { OnOk result (self.new.notes.items ≡ self.old.notes.items ++ note ∷ []) }
        ensures totals { self.new.totals ≡ self.old.totals }
        ensures full { IsErr result → self.old.notes.capacity ≤ length self.old.notes.items }
        ensures reserved { self.new.notes.capacity ≡ self.old.notes.capacity }
    {
        push_note(&mut self.notes, note)
    }

    /// Counts the notes below a position, and removes them.
    pub fn fold_below(&mut self, mark: u64)
        requires { CanFold pid_in AreTotals self.old.notes.items self.old.totals }
        ensures folds { Folds place_of AreTotals mark self.old.notes.items self.new.notes.items self.old.totals self.new.totals }
        ensures reserved { self.new.notes.capacity ≡ self.old.notes.capacity }
    {
        while let Some(note) = pop_below(&mut self.notes, mark) {
            self.totals.add(note);
        }
    }

    /// What was counted.
    pub fn totals(&self) -> &Totals
        ensures { result.now ≡ self.now.totals }
    {
        &self.totals
    }
}
