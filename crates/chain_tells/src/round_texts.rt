//! How what is told in a round of a chain is written.
ghost use Rattle.std.specs.Prelude.{◌≡◌, ℕ, List, [], length, IfOk};
ghost use Rattle.std.specs.Option.{option_map};
ghost use Rattle.std.specs.String.{string_bytes};
ghost use Rattle.chain_tells.specs.Rounds.{Round};
ghost use Rattle.chain_tells.specs.Waiting.{waiting};

use crate::WaitingLines;
use std::alloc::{AllocError, Global};

/// Writes what is told in a round of a chain as its report has it: the lines of its plugins, and what the source of its input
/// says between two positions.
pub trait RoundTexts<S> {
    // What becomes of the writer by a round that has this text.
    ghost writes: { Self → Self → Round S → List ℕ → Type 0 };

    /// Takes all lines that wait, one after another until none is left, and writes them as one text with what the source says of
    /// the positions from `from` to `to`, if the input reads one. Out of memory they are taken too, and are lost.
    fn take_text(
        &mut self,
        alloc: Global,
        source: Option<&S>,
        from: u64,
        to: u64,
        lines: &mut WaitingLines,
    ) -> Result<String, AllocError>
        ensures text { IfOk result (λ text. writes self.old self.new
            (record { lines = waiting lines.old; source = option_map (λ s. s.now) source.entry; from = from; to = to }) (string_bytes text)) }
        ensures all { waiting lines.new ≡ [] }
        ensures rows { length lines.new.rows.items ≡ length lines.old.rows.items };
}
