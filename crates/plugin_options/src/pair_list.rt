//! A list of pairs of numbers.
ghost use Rattle.std.specs.Prelude.{◌≡◌};

use std::marker::Model;

/// Pairs of numbers in order, as `remap` has them of a source and a target.
#[derive(Drop)]
pub struct PairList {
    pairs: Vec<(u64, u64)>,
}

impl Model for PairList {
    ghost use Rattle.std.specs.Prelude.{List, ℕ};

    ghost Value = { List (ℕ × ℕ) };

    ghost view = { λ l. l.pairs.items };
}

impl PairList {
    /// The list of these pairs. Allocates nothing.
    pub fn of(pairs: Vec<(u64, u64)>) -> PairList
        ensures { result ≡ pairs.items }
    {
        PairList { pairs }
    }

    /// The pairs as a slice.
    pub fn as_slice(&self) -> &[(u64, u64)]
        ensures { result.now ≡ self.now }
    {
        self.pairs.as_slice()
    }
}
