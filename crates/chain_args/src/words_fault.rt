//! The fault of a command line.

ghost use Rattle.std.specs.Prelude.{◌≡◌};
ghost use Rattle.chain_args.specs.WordsFault.{fault_of_refusal};

use plugin_options::{Refusal, WordsRule};

/// Why a command line has no plan.
#[derive(Drop, Debug, Clone, Copy, PartialEq, Eq)]
pub enum WordsFault {
    /// A segment breaks a rule. `word` is the number of its first word, from 0; for the general options it is 0.
    At { word: usize, rule: WordsRule },
    /// Out of memory.
    NoMemory,
}

impl WordsFault {
    /// The fault of a segment that is refused and whose first word has this number.
    pub(crate) fn at(word: usize, refusal: Refusal) -> WordsFault
        ensures { result ≡ fault_of_refusal word refusal }
    {
        match refusal {
            Refusal::Broken(rule) => WordsFault::At { word, rule },
            Refusal::NoMemory => WordsFault::NoMemory,
        }
    }
}
