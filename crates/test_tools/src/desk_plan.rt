//! Which calls of the desk of a row fail, and how much each moves.

ghost use Rattle.std.specs.Prelude.{◌≡◌, ◌<◌, IfOk};

use std::alloc::{AllocError, Global};
use ts_outside::{FailPlan, NumberList};

/// Which calls of a desk fail, each kind counted from 1, how many bytes one call moves, and how many the desk holds: a
/// `FailPlan` that is in a table of rows.
#[derive(Clone, Copy)]
pub struct DeskPlan {
    /// The files of tables and the openings of inputs and outputs that fail, counted together.
    pub opens: &'static [u64],
    /// The reads of each input that fail.
    pub reads: &'static [u64],
    /// The writes of an output that fail.
    pub writes: &'static [u64],
    /// The reports that fail.
    pub reports: &'static [u64],
    /// The closings of an output that fail.
    pub closes: &'static [u64],
    /// The most bytes that one read gives.
    pub read_piece: usize,
    /// The most bytes that one write or one report takes.
    pub write_piece: usize,
    /// How many bytes an output holds at most, and the reports.
    pub room: usize,
}

/// No call fails, a read gives one packet at most, and a write takes 100 bytes.
pub const ORDINARY: DeskPlan = DeskPlan {
    opens: &[],
    reads: &[],
    writes: &[],
    reports: &[],
    closes: &[],
    read_piece: 188,
    write_piece: 100,
    room: 20_000,
};

impl DeskPlan {
    /// The plan as a desk takes it. A desk has no pieces of 0 bytes: they have one byte. Out of memory it returns
    /// `AllocError`.
    pub fn fail_plan(&self, alloc: Global) -> Result<FailPlan, AllocError>
        ensures { IfOk result (λ p. (0 < p.read_piece) × (0 < p.write_piece)) }
    {
        let read_piece = self.read_piece.max(1);
        let write_piece = self.write_piece.max(1);
        let mut plan = FailPlan::none(alloc, read_piece, write_piece, self.room);
        self.fill(alloc, &mut plan)?;
        Ok(plan)
    }

    /// Puts the numbers of the calls that fail into a plan. Nothing else is held while room for them is taken.
    fn fill(&self, alloc: Global, plan: &mut FailPlan) -> Result<(), AllocError>
        ensures { (plan.new.read_piece ≡ plan.old.read_piece) × (plan.new.write_piece ≡ plan.old.write_piece) }
    {
        set(alloc, &mut plan.opens, self.opens)?;
        set(alloc, &mut plan.reads, self.reads)?;
        set(alloc, &mut plan.writes, self.writes)?;
        set(alloc, &mut plan.reports, self.reports)?;
        set(alloc, &mut plan.closes, self.closes)
    }
}

/// Replaces a list by numbers. Out of memory it returns `AllocError`.
fn set(alloc: Global, list: &mut NumberList, calls: &[u64]) -> Result<(), AllocError> {
    *list = NumberList::of(Vec::from_slice(alloc, calls)?);
    Ok(())
}
