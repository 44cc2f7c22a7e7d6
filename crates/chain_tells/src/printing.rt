//! The lines of a chain, printed at a desk while it runs.
//!
//! The lines of a round are one text and one report: so what stands printed are the lines of whole positions. A report that fails
//! ends the printing and not the run.
ghost use Rattle.std.specs.Prelude.{◌≡◌, ◌||◌, [], false, length};
ghost use Rattle.chain_tells.specs.Printing.{PrintsLines};
ghost use Rattle.chain_tells.specs.Waiting.{waiting};

use crate::{LineTexts, WaitingLines};
use std::alloc::{AllocError, Global};
use ts_outside::{Desk, say};

/// What came of the printing so far.
#[derive(Clone, Copy)]
pub struct Printing {
    /// Whether a report failed; nothing is printed after that.
    pub failed: bool,
    /// Whether there was no memory for a text; nothing is printed after that.
    pub wants: bool,
}

/// Nothing failed yet.
pub fn printing_well() -> Printing
    ensures failed { result.failed ≡ false }
    ensures wants { result.wants ≡ false }
{
    Printing {
        failed: false,
        wants: false,
    }
}

/// Whether nothing more is printed.
pub(crate) fn is_over(printing: &Printing) -> bool
    ensures { result ≡ (printing.now.wants || printing.now.failed) }
{
    printing.wants || printing.failed
}

/// Prints the lines that wait at the desk, unless printing is over, and takes them in any case.
pub fn print_lines<D: Desk, L: LineTexts>(
    alloc: Global,
    texts: &L,
    printing: &mut Printing,
    desk: &mut D,
    lines: &mut WaitingLines,
)
    ensures prints { PrintsLines D.seen (L.text_of texts.now) (printing.old, desk.old) (printing.new, desk.new) (waiting lines.old) }
    ensures all { waiting lines.new ≡ [] }
    ensures rows { length lines.new.rows.items ≡ length lines.old.rows.items }
{
    let text = texts.take_text(alloc, lines);
    if is_over(printing) {
        return;
    }
    match text {
        Ok(text) => printing.failed = say(desk, text.as_str()),
        Err(AllocError) => printing.wants = true,
    }
}
