//! Counts by a number of 16 bits.
ghost use Rattle.std.specs.Prelude.{◌≡◌, ◌+◌, min};

use indexmap::IndexMap;
use std::alloc::{AllocError, Global};

/// How often each number came. A count that would pass 64 bits stands still at their end.
#[derive(Drop)]
pub struct NumberCounts {
    counts: IndexMap<u16, u64>,
}

impl NumberCounts {
    ghost use Rattle.std.specs.Prelude.{◌≡◌, ◌==◌, ◌&&◌, ℕ, None, IsErr, OnOk, nat_eq, true, if◌then◌else◌};
    ghost use Rattle.indexmap.specs.IndexMap.{get};
    ghost use Rattle.plug_info_state.specs.EitStands.{count_of, counted};

    /// Nothing came yet.
    pub fn new(alloc: Global) -> NumberCounts
        ensures { (id : ℕ) → count_of result id ≡ 0 }
    {
        NumberCounts {
            counts: IndexMap::new(alloc),
        }
    }

    /// Counts a number once more, if it is to be counted. It needs memory only for a number that never came before.
    pub fn add_if(&mut self, is_one: bool, id: u16) -> Result<(), AllocError>
        ensures counted { OnOk result ((other : ℕ) → count_of self.new other ≡ counted (is_one && (id == other)) (count_of self.old other)) }
        ensures room { IsErr result → (is_one ≡ true) × (get nat_eq self.old.counts id ≡ None) }
    {
        if !is_one {
            return Ok(());
        }
        let next = one_more(self.of(id));
        self.set(id, next)?;
        Ok(())
    }

    // Makes this the count of a number.
    fn set(&mut self, id: u16, count: u64) -> Result<(), AllocError>
        ensures is { OnOk result ((other : ℕ) → count_of self.new other ≡ (if id == other then count else count_of self.old other)) }
        ensures room { IsErr result → get nat_eq self.old.counts id ≡ None }
    {
        self.counts.insert(id, count)?;
        Ok(())
    }

    /// How often a number came.
    pub fn of(&self, id: u16) -> u64
        ensures { result ≡ count_of self.now id }
    {
        match self.counts.get(&id) {
            Some(count) => *count,
            None => 0,
        }
    }
}

// A count after one more; it stands still at the end of 64 bits.
fn one_more(count: u64) -> u64
    ensures { result ≡ min (count + 1) 18446744073709551615 }
{
    count.saturating_add(1)
}
