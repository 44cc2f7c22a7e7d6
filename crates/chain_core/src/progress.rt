//! The progress of one stage.

use crate::{StageEnd, StageWord};
use chain_model::Cause;

/// What the core knows of a stage.
#[derive(Clone, Copy, PartialEq, Eq)]
pub struct Progress {
    /// How many cells the stage has given.
    pub given: u64,
    /// How many cells the stage has taken.
    pub taken: u64,
    /// The first agreement that the stage reported, where it uses joint termination.
    pub agreed: Option<u64>,
    /// How the stage has ended.
    pub ended: Option<StageEnd>,
}

impl Progress {
    ghost use Rattle.std.specs.Prelude.{◌≡◌, ◌+◌, ◌-◌, ◌≤◌, min, option_to_list};
    ghost use Rattle.std.specs.Option.{option_and_then};
    ghost use Rattle.chain_model.specs.Cut.{causes_at};
    ghost use Rattle.chain_core.specs.Close.{cause_of_stage, ending_of_progress};
    ghost use Rattle.chain_core.specs.CoreNumbers.{fresh_progress, noted_progress, taking_progress};

    /// A stage that has given and taken nothing.
    pub(crate) fn fresh() -> Progress
        ensures { result ≡ fresh_progress }
    {
        Progress {
            given: 0,
            taken: 0,
            agreed: None,
            ended: None,
        }
    }

    /// The progress of the stage when it has given `done` cells more and reported the word.
    pub(crate) fn noted(self, is_user: bool, done: usize, word: StageWord) -> Progress
        requires { self.given + done ≤ self.taken }
        ensures { result ≡ noted_progress is_user self done word }
    {
        let agreed = if is_user {
            self.agreed.or(word.agreed)
        } else {
            self.agreed
        };
        Progress {
            given: self.given + done as u64,
            taken: self.taken,
            agreed,
            ended: word.ended,
        }
    }

    /// The progress of the stage when it has taken of the cells below `reach`, at most `most`.
    pub(crate) fn taking(self, reach: u64, most: usize) -> Progress
        ensures { result ≡ taking_progress self (min most (reach - self.taken)) }
    {
        let waiting = reach.saturating_sub(self.taken);
        Progress {
            given: self.given,
            taken: self.taken + waiting.min(most as u64),
            agreed: self.agreed,
            ended: self.ended,
        }
    }

    /// The cause that the stage of this number gives, where it has ended by itself.
    pub(crate) fn own_cause(self, stage: usize) -> Option<Cause>
        ensures { result ≡ option_and_then (cause_of_stage stage) self.ended }
    {
        match self.ended {
            Some(end) => end.own_cause(stage),
            None => None,
        }
    }

    /// That cause, where the stage has given exactly as many cells as the cut.
    pub(crate) fn cause_at(self, stage: usize, cut: u64) -> Option<Cause>
        ensures { option_to_list result ≡ causes_at cut (ending_of_progress stage self) }
    {
        if self.given == cut {
            self.own_cause(stage)
        } else {
            None
        }
    }
}
