//! The plan of the failures of a desk in memory.
ghost use Rattle.std.specs.Prelude.{◌≡◌, []};

use crate::number_list::NumberList;
use std::alloc::Global;

/// Which calls of a `MemoryDesk` fail, and how much one call moves.
///
/// Calls are numbered from 1.
#[derive(Drop)]
pub struct FailPlan {
    /// The openings and `read_file` calls of a desk that fail, counted together.
    pub opens: NumberList,
    /// The reads of each source that fail.
    pub reads: NumberList,
    /// The writes of each sink that fail.
    pub writes: NumberList,
    /// The reports of a desk that fail.
    pub reports: NumberList,
    /// The `close_out` calls of a desk that fail.
    pub closes: NumberList,
    /// The most bytes that one read moves, at least 1.
    pub read_piece: usize,
    /// The most bytes that one write or one report moves, at least 1.
    pub write_piece: usize,
    /// The most bytes that one output holds, and that the reports hold.
    pub room: usize,
}

impl FailPlan {
    /// A plan by which no call fails: one read moves at most `read_piece` bytes, one write or report at most
    /// `write_piece`, and an output and the reports hold `room` bytes. Allocates nothing.
    pub fn none(alloc: Global, read_piece: usize, write_piece: usize, room: usize) -> FailPlan
        ensures { result
            ≡ record {
              opens = [];
              reads = [];
              writes = [];
              reports = [];
              closes = [];
              read_piece = read_piece;
              write_piece = write_piece;
              room = room;
            } }
    {
        FailPlan {
            opens: NumberList::of(Vec::new(alloc)),
            reads: NumberList::of(Vec::new(alloc)),
            writes: NumberList::of(Vec::new(alloc)),
            reports: NumberList::of(Vec::new(alloc)),
            closes: NumberList::of(Vec::new(alloc)),
            read_piece,
            write_piece,
            room,
        }
    }
}
