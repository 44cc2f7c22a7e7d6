//! The cells that are not counted yet.
//!
//! A copy of each cell from the greatest mark on waits here, and goes into the tables and numbers only once it is known
//! to count. So what `info` knows is that of a list of cells and nothing else, and no change of a table has to be kept
//! beside the one before. A copy is 200 bytes, and the buffer has some thousands of them.
ghost use Rattle.std.specs.Prelude.{◌≡◌, ◌∷◌, IfSome};

use circular_buffer::HeapCircularBuffer;
use plug_info_state::Tracker;
use plugin_notes::push_note;
use std::alloc::{AllocError, Global};
use ts_packet::Cell;

/// The cells from the greatest mark on, which may still be after the cut, and the tracker of those below it.
#[derive(Drop)]
pub struct MetCells {
    waiting: HeapCircularBuffer<Cell>,
    /// The greatest mark.
    mark: u64,
    pub(crate) tracker: Tracker,
}

impl MetCells {
    ghost use Rattle.std.specs.Prelude.{◌≡◌, ◌≤◌, ◌<◌, ◌∷◌, ◌++◌, [], ℕ, List, IfOk, OnOk, IsErr, length};
    ghost use Rattle.chain_model.specs.declared.positions.TheConstants.{POSITION_LIMIT};
    ghost use Rattle.ts_packet.specs.declared.cell.Cell.{Cell as GivenCell};
    ghost use Rattle.plugin_trait.specs.Marks.{AllowsMark};
    ghost use Rattle.plug_info.specs.MetState.{HasMet};

    /// No cell yet. It allocates room for as many cells as the buffer holds.
    pub fn new(alloc: Global, buffer: usize) -> Result<MetCells, AllocError>
        ensures met { IfOk result (λ met. HasMet met [] 0) }
        ensures reserved { IfOk result (λ met. met.waiting.capacity ≡ buffer) }
    {
        let waiting = HeapCircularBuffer::with_capacity(alloc, buffer)?;
        let tracker = Tracker::new(alloc)?;
        Ok(MetCells {
            waiting,
            mark: 0,
            tracker,
        })
    }

    /// Appends the next cell. If the buffer is full it returns `AllocError`.
    #[inline]
    pub fn push(&mut self, cell: Cell) -> Result<(), AllocError>
        ensures met { OnOk result ((history : List GivenCell) (mark : ℕ) → HasMet self.old history mark → length history < POSITION_LIMIT
            → HasMet self.new (history ++ cell ∷ []) mark) }
        ensures full { IsErr result → self.old.waiting.capacity ≤ length self.old.waiting.items }
        ensures reserved { self.new.waiting.capacity ≡ self.old.waiting.capacity }
    {
        push_note(&mut self.waiting, cell)
    }

    /// Counts the cells below a later mark. After `AllocError` it is not to be used any more.
    pub fn take_below(&mut self, mark: u64) -> Result<(), AllocError>
        requires { AllowsMark (HasMet self.old) mark }
        ensures met { OnOk result ((history : List GivenCell) (before : ℕ) → HasMet self.old history before
            → before ≤ mark → mark ≤ length history
            → HasMet self.new history mark) }
        ensures reserved { self.new.waiting.capacity ≡ self.old.waiting.capacity }
    {
        while self.mark < mark {
            let Some(cell) = next_cell(&mut self.waiting) else {
                return Err(AllocError);
            };
            self.tracker.take(self.mark, &cell)?;
            self.mark += 1;
        }
        Ok(())
    }
}

// Removes and returns the first cell, if there is one.
#[inline]
fn next_cell(waiting: &mut HeapCircularBuffer<Cell>) -> Option<Cell>
    ensures first { IfSome result (λ cell. waiting.old.items ≡ cell ∷ waiting.new.items) }
    ensures reserved { waiting.new.capacity ≡ waiting.old.capacity }
{
    waiting.front()?;
    waiting.pop_front()
}
