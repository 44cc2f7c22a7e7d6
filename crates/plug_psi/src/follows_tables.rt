//! What follows one PID by its tables.

ghost use Rattle.std.specs.Prelude.{◌≡◌, ◌<◌, ◌∷◌, ◌++◌, ℕ, [], List, IfOk, OnOk};
ghost use Rattle.ts_demux.specs.TablesOn.{Completes};

use std::alloc::{AllocError, Global};
use ts_packet::{NULL_PID, Packet};
use ts_section::TableRun;

/// What follows packets of one PID by the tables that they complete, which somebody else reads.
pub trait FollowsTables: Drop {
    /// What a new one is made from, besides its PID.
    type Seed;
    /// What is returned for a packet.
    type Told: Drop;

    /// It was made from this seed, and stands for the packets that were taken on a PID.
    ghost stands: { Self.Seed → Self → ℕ → List (List ℕ) → Type 0 };

    /// This is returned for a packet on a PID, after those that were taken, by one that was made from this seed.
    ghost tells: { Self.Seed → ℕ → List (List ℕ) → List ℕ → Self.Told → Type 0 };

    /// A new one, which has processed no packet.
    fn fresh(alloc: Global, seed: &Self::Seed, pid: u16) -> Result<Self, AllocError>
        requires { pid < NULL_PID }
        ensures { IfOk result (λ it. stands seed.now it pid []) };

    /// Processes the next packet of its PID with the tables that it completes. After `AllocError` it is not to be used any
    /// more.
    fn take(
        &mut self,
        alloc: Global,
        tables: Vec<TableRun>,
        packet: &Packet,
    ) -> Result<Self::Told, AllocError>
        ensures stands { OnOk result ((seed : Self.Seed) (pid : ℕ) (taken : List (List ℕ)) → stands seed self.old pid taken
            → Completes pid taken packet.now tables.items → stands seed self.new pid (taken ++ packet.now ∷ [])) }
        ensures tells { IfOk result (λ told. (seed : Self.Seed) (pid : ℕ) (taken : List (List ℕ)) → stands seed self.old pid taken
            → Completes pid taken packet.now tables.items → tells seed pid taken packet.now told) };
}
