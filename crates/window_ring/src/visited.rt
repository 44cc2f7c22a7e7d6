//! The results of a visit.

use chain_core::News;

/// The result of a visit.
pub enum Visited {
    /// The compare found another stage with the turn. Nothing was given or taken, and the word was not reported.
    Busy { holder: usize },
    /// The cells were given on, the stage took of those that wait, and this is its news.
    Given(News),
}
