//! Counts of packets by PID.
ghost use Rattle.std.specs.Prelude.{◌≡◌, ◌<◌, ◌++◌, ◌∷◌, [], ℕ, List, IfOk, slice_index, if◌then◌else◌};

use std::alloc::{AllocError, Global};
use ts_packet::{PID_COUNT, PidRow};

/// How many packets were counted on each PID, and in total.
#[derive(Drop)]
pub struct Tally {
    counts: PidRow<u64>,
    total: u64,
}

impl Tally {
    ghost use Rattle.std.specs.Prelude.{◌≡◌, ◌<◌, ◌++◌, ◌∷◌, [], ℕ, List, IfOk, slice_index, if◌then◌else◌};
    ghost use Rattle.plugin_notes.specs.Tallies.{IsCounted, HasRoomIn};

    /// Nothing counted yet. Allocates 64 KiB.
    pub fn new(alloc: Global) -> Result<Tally, AllocError>
        ensures { IfOk result (λ tally. IsCounted tally []) }
    {
        Ok(Tally {
            counts: PidRow::filled(alloc, 0)?,
            total: 0,
        })
    }

    /// Counts one more packet on a PID.
    #[inline]
    pub fn add(&mut self, pid: u16)
        requires on_pid { pid < PID_COUNT }
        requires room { HasRoomIn self.old }
        ensures { (pids : List ℕ) → IsCounted self.old pids → IsCounted self.new (pids ++ pid ∷ []) }
    {
        let count = self.counts.get(pid);
        self.counts.set(pid, count + 1);
        self.total += 1;
    }

    /// Counts one more packet on a PID, if the condition holds.
    #[inline]
    pub fn add_if(&mut self, is_one: bool, pid: u16)
        requires on_pid { pid < PID_COUNT }
        requires room { HasRoomIn self.old }
        ensures { (pids : List ℕ) → IsCounted self.old pids → IsCounted self.new (pids ++ (if is_one then pid ∷ [] else [])) }
    {
        if is_one {
            self.add(pid);
        }
    }

    /// How many packets were counted on a PID.
    pub fn count_on(&self, pid: u16) -> u64
        requires on_pid { pid < PID_COUNT }
        ensures { result ≡ slice_index self.now.counts pid }
    {
        self.counts.get(pid)
    }

    /// How many packets were counted in total.
    pub fn total(&self) -> u64
        ensures { result ≡ self.now.total }
    {
        self.total
    }
}
