//! How the lines of a chain are written.
ghost use Rattle.std.specs.Prelude.{◌≡◌, ℕ, List, [], length, IfOk};
ghost use Rattle.std.specs.String.{string_bytes};
ghost use Rattle.chain_rounds.specs.declared.told_line.ToldLine.{ToldLine};
ghost use Rattle.chain_tells.specs.Waiting.{waiting};

use crate::WaitingLines;
use std::alloc::{AllocError, Global};

/// Writes the lines of a chain as its report has them.
pub trait LineTexts {
    // The text of these lines.
    ghost text_of: { Self → List ToldLine → List ℕ };

    /// Takes all lines that wait, one after another until none is left, as one text. Out of memory they are taken too, and are
    /// lost.
    fn take_text(&self, alloc: Global, lines: &mut WaitingLines) -> Result<String, AllocError>
        ensures text { IfOk result (λ text. string_bytes text ≡ text_of self.now (waiting lines.old)) }
        ensures all { waiting lines.new ≡ [] }
        ensures rows { length lines.new.rows.items ≡ length lines.old.rows.items };
}
