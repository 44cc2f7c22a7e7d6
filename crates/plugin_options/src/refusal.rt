//! Why words are refused.
ghost use Rattle.plugin_options.specs.declared.refusal.Refusal.TheVariants.{NoMemory};
ghost use Rattle.std.specs.Prelude.{◌≡◌};

use crate::words_rule::WordsRule;
use std::alloc::{AllocError, AllocFailed};

/// Why a segment is not read: a rule that it breaks, or running out of memory.
#[derive(Drop, Debug, Clone, Copy, PartialEq, Eq)]
pub enum Refusal {
    Broken(WordsRule),
    NoMemory,
}

impl From<AllocError> for Refusal {
    ghost from_gives = { λ _ r. r ≡ NoMemory };

    fn from(_error: AllocError) -> Refusal {
        Refusal::NoMemory
    }
}

impl<T: Drop> From<AllocFailed<T>> for Refusal {
    ghost from_gives = { λ _ r. r ≡ NoMemory };

    fn from(_error: AllocFailed<T>) -> Refusal {
        Refusal::NoMemory
    }
}
