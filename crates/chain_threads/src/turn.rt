//! The results of a turn.

ghost use Rattle.std.specs.Prelude.{◌≡◌, is_some};
ghost use Rattle.chain_threads.specs.Turning.{answer_of};
ghost use Rattle.chain_threads.specs.Driving.{is_ended};

use chain_core::StageWord;

/// The result of a turn of a stage.
#[derive(Debug, Clone, Copy, PartialEq, Eq)]
pub enum Turn {
    /// Another stage had the turn of the ring. Nothing was given, reported or worked on.
    Busy,
    /// The visit reported the stage's end.
    Ended,
    /// The visit was made; the stage has no cell in hand, and no end to report.
    Idle,
    /// The visit was made, and the stage worked on cells in hand, or has an end to report with its next visit.
    Worked,
}

impl Turn {
    /// The result of a turn whose stage goes on, by whether its hand is empty and by what it is to report.
    pub(crate) fn of(empty: bool, word: &StageWord) -> Turn
        ensures { result ≡ answer_of empty (is_some word.now.ended) }
    {
        if empty {
            if word.ended.is_none() {
                return Turn::Idle;
            }
        }
        Turn::Worked
    }

    /// Whether the stage has ended.
    pub(crate) fn ends(&self) -> bool
        ensures { result ≡ is_ended self.now }
    {
        matches!(self, Turn::Ended)
    }
}
