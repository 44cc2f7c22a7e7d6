//! A set of PIDs.
ghost use Rattle.std.specs.Prelude.{◌≡◌, ◌==◌, ◌<◌, IfOk, length};
ghost use Rattle.plugin_options.specs.Selection.{is_selected};
ghost use Rattle.plugin_options.specs.NumberSet.{has_number};

use crate::number_set::NumberSet;
use std::alloc::{AllocError, Global};
use std::marker::Model;
use ts_packet::{PID_COUNT, PidRow};

/// A set of PIDs; contracts see its ranges. A table says whether a PID is in it, so that no search is needed.
#[derive(Drop)]
pub struct PidSet {
    ranges: NumberSet,
    table: PidRow<bool>,
}

impl Model for PidSet {
    ghost use Rattle.std.specs.Prelude.{List, ℕ};
    ghost use Rattle.plugin_options.specs.PidTable.{IsTableOf};

    ghost Value = { List (ℕ × ℕ) };

    ghost view = { λ s. s.ranges };

    ghost invariant = { λ s. IsTableOf s.ranges s.table };
}

impl PidSet {
    /// The set of these ranges. It allocates a table of 8 KiB and a copy of the ranges, and looks up 8192 PIDs in them.
    pub fn of(alloc: Global, ranges: &NumberSet) -> Result<PidSet, AllocError>
        ensures { IfOk result (λ set. set ≡ ranges.now) }
    {
        let table = PidRow::of(alloc, |pid: u16| ranges.has(u64::from(pid)))?;
        let ranges = NumberSet::of(Vec::from_slice(alloc, ranges.as_slice())?);
        Ok(PidSet { ranges, table })
    }

    /// Whether the PID is in one of the ranges.
    #[inline]
    pub fn has(&self, pid: u16) -> bool
        requires { pid < PID_COUNT }
        ensures { result ≡ has_number self.now pid }
    {
        self.table.get(pid)
    }

    /// Whether the PID is selected: any where the set is empty, else one that is in the set, or with
    /// `negate` one that is not.
    #[inline]
    pub fn selects(&self, negate: bool, pid: u16) -> bool
        requires { pid < PID_COUNT }
        ensures { result ≡ is_selected self.now negate pid }
    {
        self.is_empty() || self.has(pid) != negate
    }

    /// Whether there is no PID in the set.
    pub fn is_empty(&self) -> bool
        ensures { result ≡ (length self.now == 0) }
    {
        self.ranges.is_empty()
    }
}
