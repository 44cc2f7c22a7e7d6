//! The result of a stage's work.

ghost use Rattle.std.specs.Prelude.{◌≡◌, None};

use chain_core::{StageEnd, StageWord};

/// What a stage did with the cells in its hands.
#[derive(Clone, Copy, PartialEq, Eq)]
pub struct Work {
    /// So many of the first cells are the next cells of the stage's list, and the next visit gives them on.
    pub done: usize,
    /// What the stage reports with that visit.
    pub word: StageWord,
}

impl Work {
    /// The work of a stage that has no agreement to report.
    pub(crate) fn ending(done: usize, ended: Option<StageEnd>) -> Work
        ensures { result ≡ record { done = done; word = record { agreed = None; ended = ended } } }
    {
        Work {
            done,
            word: StageWord {
                agreed: None,
                ended,
            },
        }
    }
}
