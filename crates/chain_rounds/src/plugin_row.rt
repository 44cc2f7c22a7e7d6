//! The lines of one plugin as a row.

ghost use Rattle.std.specs.Prelude.{◌≡◌, IfOk, map};
ghost use Rattle.chain_rounds.specs.Told.{told_by};

use crate::ToldLine;
use plugin_trait::Line;
use std::alloc::{AllocError, Global};
use std::collections::VecDeque;

/// The lines of the plugin of this number as a row.
pub fn told_row(
    alloc: Global,
    plugin: usize,
    lines: Vec<Line>,
) -> Result<VecDeque<ToldLine>, AllocError>
    ensures { IfOk result (λ row. row.items ≡ map (told_by plugin) lines.items) }
{
    let mut row = VecDeque::new(alloc);
    for line in lines {
        row.push_back(ToldLine { plugin, line })?;
    }
    Ok(row)
}
