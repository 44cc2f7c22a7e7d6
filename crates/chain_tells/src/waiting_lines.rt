//! Lines that were taken away from the plugins of a chain and wait to be told.
ghost use Rattle.std.specs.Prelude.{◌≡◌, ◌≤◌, ◌<◌, ℕ, [], drop, length, IfSome, IfNone, IfOk};
ghost use Rattle.chain_tells.specs.Waiting.{told_rows, IsNextRow, comes_first_of};

use crate::line_row::LineRow;
use chain_rounds::ToldLine;
use plugin_trait::Line;
use std::alloc::{AllocError, Global};
use std::collections::VecDeque;

/// The number of a row, and the position of its first line.
#[derive(Clone, Copy)]
struct NextRow {
    row: usize,
    at: u64,
}

/// Whether a line at this position comes before the next one of later rows.
fn comes_first(at: u64, later: &Option<NextRow>) -> bool
    ensures { result ≡ comes_first_of at later.now }
{
    match later {
        Some(next) => !(next.at < at),
        None => true,
    }
}

/// The row that begins with the next line, among the rows from this one on.
fn next_row(rows: &[LineRow], first: usize) -> Option<NextRow>
    requires { first ≤ length rows.now }
    ensures some { IfSome result (λ next. IsNextRow rows.now first next.row next.at) }
    ensures none { IfNone result (told_rows first (drop first rows.now) ≡ []) }
{
    if first >= rows.len() {
        return None;
    }
    let later = next_row(rows, first + 1);
    let Some(line) = rows[first].lines.front() else {
        return later;
    };
    if comes_first(line.at, &later) {
        return Some(NextRow {
            row: first,
            at: line.at,
        });
    }
    later
}

/// Lines that were taken away from the plugins of a chain and wait to be told. To tell them takes no memory.
#[derive(Drop)]
pub struct WaitingLines {
    /// A row for each plugin, in their order.
    pub(crate) rows: Vec<LineRow>,
}

/// Appends empty rows to these until there are so many.
fn add_rows(alloc: Global, rows: &mut Vec<LineRow>, plugins: usize) -> Result<(), AllocError>
    requires { length rows.old.items ≤ plugins }
    ensures { IfOk result (λ _. length rows.new.items ≡ plugins) }
{
    if rows.len() >= plugins {
        return Ok(());
    }
    rows.push(LineRow {
        lines: VecDeque::new(alloc),
    })?;
    add_rows(alloc, rows, plugins)
}

impl WaitingLines {
    ghost use Rattle.std.specs.Prelude.{◌≡◌, ◌<◌, [], ◌∷◌, length, slice_get, slice_set, true, false, IfSome, IfNone, IfOk};
    ghost use Rattle.std.specs.Option.{option_map};
    ghost use Rattle.chain_rounds.specs.Told.{place_of};
    ghost use Rattle.chain_tells.specs.Waiting.{waiting};
    ghost use Rattle.chain_tells.specs.declared.line_row.LineRow.{LineRow};

    /// For a chain of so many plugins; no line waits.
    pub fn new(alloc: Global, plugins: usize) -> Result<WaitingLines, AllocError>
        ensures { IfOk result (λ lines. length lines.rows.items ≡ plugins) }
    {
        let mut rows = Vec::new(alloc);
        add_rows(alloc, &mut rows, plugins)?;
        Ok(WaitingLines { rows })
    }

    /// Puts lines of the plugin after so many others into its row, in the place of those that waited there.
    pub fn put(&mut self, plugin: usize, lines: Vec<Line>)
        requires { plugin < length self.old.rows.items }
        ensures { (row : LineRow) × (row.lines.items ≡ lines.items)
            × (self.new.rows.items ≡ slice_set self.old.rows.items plugin row) }
    {
        self.rows[plugin] = LineRow {
            lines: VecDeque::from_vec(lines),
        };
    }

    /// Whether no line waits.
    pub fn is_empty(&self) -> bool
        ensures yes { result ≡ true → waiting self.now ≡ [] }
        ensures no { result ≡ false → 0 < length (waiting self.now) }
    {
        next_row(&self.rows, 0).is_none()
    }

    /// The position of the next line, if one waits.
    pub fn next_at(&self) -> Option<u64>
        ensures { result ≡ option_map place_of (slice_get (waiting self.now) 0) }
    {
        match next_row(&self.rows, 0) {
            Some(next) => Some(next.at),
            None => None,
        }
    }

    /// Removes and returns the next line: the one at the lowest position, and of several at one position that of the first
    /// plugin. It takes no memory.
    pub fn next(&mut self) -> Option<ToldLine>
        ensures some { IfSome result (λ line. waiting self.old ≡ line ∷ waiting self.new) }
        ensures none { IfNone result ((waiting self.old ≡ []) × (waiting self.new ≡ [])) }
        ensures rows { length self.new.rows.items ≡ length self.old.rows.items }
    {
        let next = next_row(&self.rows, 0)?;
        let line = self.rows[next.row].lines.pop_front()?;
        Some(ToldLine {
            plugin: next.row + 1,
            line,
        })
    }
}
