//! What follows the packets of one PID.

ghost use Rattle.std.specs.Prelude.{◌≡◌, ◌<◌, ◌∷◌, ◌++◌, ℕ, [], List, IfOk, OnOk};

use std::alloc::{AllocError, Global};
use ts_packet::{NULL_PID, Packet};

/// What follows packets of one PID, which are passed to it one after another.
pub trait Follows: Drop {
    /// What a new one is made from, besides its PID.
    type Seed;
    /// What comes with each packet, such as the tables that it completes.
    type Input: Drop;
    /// What is returned for a packet.
    type Told: Drop;

    /// It was made from this seed, and stands for the packets that were taken on a PID.
    ghost stands: { Self.Seed → Self → ℕ → List (List ℕ) → Type 0 };

    /// This may come with a packet on a PID, after those that were taken.
    ghost given: { ℕ → List (List ℕ) → List ℕ → Self.Input → Type 0 };

    /// This is returned for a packet on a PID, after those that were taken, by one that was made from this seed.
    ghost tells: { Self.Seed → ℕ → List (List ℕ) → List ℕ → Self.Told → Type 0 };

    /// A new one, which has processed no packet.
    fn fresh(alloc: Global, seed: &Self::Seed, pid: u16) -> Result<Self, AllocError>
        requires { pid < NULL_PID }
        ensures { IfOk result (λ it. stands seed.now it pid []) };

    /// Processes the next packet of its PID, which has a position. After `AllocError` it is not to be used any more.
    fn take(
        &mut self,
        alloc: Global,
        at: u64,
        input: Self::Input,
        packet: &Packet,
    ) -> Result<Self::Told, AllocError>
        ensures stands { OnOk result ((seed : Self.Seed) (pid : ℕ) (taken : List (List ℕ)) → stands seed self.old pid taken
            → given pid taken packet.now input → stands seed self.new pid (taken ++ packet.now ∷ [])) }
        ensures tells { IfOk result (λ told. (seed : Self.Seed) (pid : ℕ) (taken : List (List ℕ)) → stands seed self.old pid taken
            → given pid taken packet.now input → tells seed pid taken packet.now told) };
}
