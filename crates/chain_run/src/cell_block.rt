//! The buffer of a chain in one thread.
//!
//! A stage works on a window by value, so the buffer is empty meanwhile; a lent slice could not be read into as bytes.
ghost use Rattle.std.specs.Prelude.{◌≡◌, ◌+◌, ◌<◌, ◌≤◌, ◌++◌, length, replicate, IfOk, None, true};
ghost use Rattle.ts_packet.specs.Cells.{Dropped};
ghost use Rattle.chain_run.specs.Blocks.{IsWhole, slots_of};
ghost use Rattle.chain_run.specs.Lifting.{InARow, Lifts};

use cell_land::{CellWindow, cell_land};
use std::alloc::{AllocError, Global};
use std::marker::Model;
use std::mem;

/// The cells of all slots, or none while a stage has some of them.
pub struct CellBlock {
    window: Option<CellWindow>,
}

impl Model for CellBlock {
    ghost use Rattle.chain_run.specs.Blocks.{CellSlots, slots_code, slots_of, IsWhole};
    ghost use Rattle.std.specs.Option.{IfSome};

    ghost Value = { CellSlots };

    ghost coded = { slots_code };

    ghost view = { λ b. slots_of b.window };

    ghost invariant = { λ b. IfSome b.window IsWhole };
}

/// The cells before some slots, those in them, and those behind them.
pub(crate) struct Lifted {
    pub(crate) before: CellWindow,
    pub(crate) window: CellWindow,
    pub(crate) behind: CellWindow,
}

impl CellBlock {
    /// So many slots, each with a dropped cell.
    pub(crate) fn new(alloc: Global, slots: usize) -> Result<CellBlock, AllocError>
        requires { 0 < slots }
        ensures { IfOk result (λ block. block.items ≡ replicate slots Dropped) }
    {
        let window = cell_land(alloc, slots)?;
        Ok(CellBlock {
            window: Some(window),
        })
    }

    // No slots.
    fn none() -> CellBlock
        ensures { result ≡ slots_of None }
    {
        CellBlock { window: None }
    }

    // Ends one that has no slots.
    fn end(self)
        requires { self.is_lent ≡ true }
    {
        let CellBlock { window } = self;
        match window {
            None => {}
            Some(_) => unreachable!(),
        }
    }

    // The window of all slots.
    fn whole(self) -> CellWindow
        requires { 0 < length self.items }
        ensures whole { IsWhole result }
        ensures cells { result.cells ≡ self.items }
    {
        let CellBlock { window } = self;
        match window {
            Some(window) => window,
            None => unreachable!(),
        }
    }

    // Takes all slots out.
    fn take(&mut self) -> CellBlock
        ensures all { result ≡ self.old }
        ensures none { self.new ≡ slots_of None }
    {
        mem::replace(self, CellBlock::none())
    }

    /// How many slots there are.
    pub(crate) fn len(&self) -> usize
        ensures { result ≡ length self.now.items }
    {
        match &self.window {
            Some(window) => window.len(),
            None => 0,
        }
    }

    /// Lifts the cells of some slots out, with those before and behind them.
    pub(crate) fn lift(&mut self, start: usize, len: usize) -> Lifted
        requires some { 0 < length self.old.items }
        requires within { start + len ≤ length self.old.items }
        ensures lifts { Lifts self.old.items start len result }
        ensures lent { self.new.is_lent ≡ true }
    {
        let (before, rest) = self.take().whole().split(start);
        let (window, behind) = rest.split(len);
        Lifted {
            before,
            window,
            behind,
        }
    }

    /// Puts the cells back that were lifted, with those of the slots between as they are now.
    pub(crate) fn put_back(&mut self, before: CellWindow, window: CellWindow, behind: CellWindow)
        requires lent { self.old.is_lent ≡ true }
        requires in_a_row { InARow before window behind }
        ensures { self.new.items ≡ before.cells ++ (window.cells ++ behind.cells) }
    {
        let all = before.join(window.join(behind));
        mem::replace(self, CellBlock { window: Some(all) }).end();
    }

    /// Frees the memory.
    pub(crate) fn close(self)
        requires { 0 < length self.items }
    {
        self.whole().close();
    }
}
