//! The lines of a report, in order.
ghost use Rattle.std.specs.Prelude.{◌≡◌, ◌∷◌, ◌++◌, [], OnOk};
ghost use Rattle.plugin_trait.specs.PlacedLines.{placed_at};

use plugin_trait::{Line, LineText};
use std::alloc::AllocError;

/// Appends a line with this position and text. Out of memory it returns `AllocError`.
pub fn push_line(lines: &mut Vec<Line>, at: u64, text: LineText) -> Result<(), AllocError>
    ensures { OnOk result (lines.new.items ≡ lines.old.items ++ placed_at at (text ∷ [])) }
{
    lines.push(Line { at, text })?;
    Ok(())
}
