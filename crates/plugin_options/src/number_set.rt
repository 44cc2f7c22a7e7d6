//! A set of numbers.
ghost use Rattle.std.specs.Prelude.{◌≡◌, ◌==◌, length};
ghost use Rattle.std.specs.List.{All};
ghost use Rattle.plugin_options.specs.LabelSet.{label_set};
ghost use Rattle.plugin_options.specs.NumberSet.{IsOrderedPair, has_number};

use std::marker::Model;
use ts_packet::{LABEL_COUNT, Labels};

/// A set of numbers, kept as ranges; contracts see the list of their pairs of least and greatest.
///
/// An option that is not given leaves an empty set.
#[derive(Drop)]
pub struct NumberSet {
    pairs: Vec<(u64, u64)>,
}

impl Model for NumberSet {
    ghost use Rattle.std.specs.Prelude.{List, ℕ};
    ghost use Rattle.std.specs.List.{All};
    ghost use Rattle.plugin_options.specs.NumberSet.{IsOrderedPair};

    ghost Value = { List (ℕ × ℕ) };

    ghost view = { λ s. s.pairs.items };

    ghost invariant = { λ s. All IsOrderedPair s.pairs.items };
}

impl NumberSet {
    /// The set of these ranges, in each of which the first number is at most the second. Allocates
    /// nothing.
    pub fn of(pairs: Vec<(u64, u64)>) -> NumberSet
        requires { All IsOrderedPair pairs.items }
        ensures { result ≡ pairs.items }
    {
        NumberSet { pairs }
    }

    /// The ranges as a slice.
    pub fn as_slice(&self) -> &[(u64, u64)]
        ensures value { result.now ≡ self.now }
        ensures ordered { All IsOrderedPair result.now }
    {
        self.pairs.as_slice()
    }

    /// Whether there is no number in the set.
    pub fn is_empty(&self) -> bool
        ensures { result ≡ (length self.now == 0) }
    {
        self.pairs.is_empty()
    }

    /// Whether the number is in one of the ranges. It looks at each of them.
    pub fn has(&self, number: u64) -> bool
        ensures { result ≡ has_number self.now number }
    {
        self.pairs
            .iter()
            .any(|pair| pair.0 <= number && number <= pair.1)
    }

    /// The labels of the set: its numbers from 0 to 31.
    pub fn labels(&self) -> Labels
        ensures { result ≡ label_set self.now }
    {
        let mut labels = Labels::none();
        for n in 0..LABEL_COUNT {
            if self.has(u64::from(n)) {
                labels = labels.with(n);
            }
        }
        labels
    }
}
