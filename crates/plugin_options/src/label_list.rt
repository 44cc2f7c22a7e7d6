//! The labels of an option.
ghost use Rattle.std.specs.Prelude.{◌≡◌, ◌==◌, IfOk, length};
ghost use Rattle.plugin_options.specs.LabelSet.{label_set};

use crate::number_set::NumberSet;
use std::alloc::{AllocError, Global};
use std::marker::Model;
use ts_packet::Labels;

/// The labels that an option lists; contracts see its ranges. They are kept as one set, so that no search is needed.
#[derive(Drop)]
pub struct LabelList {
    ranges: NumberSet,
    labels: Labels,
}

impl Model for LabelList {
    ghost use Rattle.std.specs.Prelude.{◌≡◌, List, ℕ};
    ghost use Rattle.plugin_options.specs.LabelSet.{label_set};

    ghost Value = { List (ℕ × ℕ) };

    ghost view = { λ l. l.ranges };

    ghost invariant = { λ l. l.labels ≡ label_set l.ranges };
}

impl LabelList {
    /// The labels of these ranges. Keeps a copy of the ranges.
    pub fn of(alloc: Global, ranges: &NumberSet) -> Result<LabelList, AllocError>
        ensures { IfOk result (λ list. list ≡ ranges.now) }
    {
        let labels = ranges.labels();
        let ranges = NumberSet::of(Vec::from_slice(alloc, ranges.as_slice())?);
        Ok(LabelList { ranges, labels })
    }

    /// The labels as a set.
    #[inline]
    pub fn labels(&self) -> Labels
        ensures { result ≡ label_set self.now }
    {
        self.labels
    }

    /// Whether there is no range in the list.
    pub fn is_empty(&self) -> bool
        ensures { result ≡ (length self.now == 0) }
    {
        self.ranges.is_empty()
    }
}
