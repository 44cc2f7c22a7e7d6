//! The lines of noted errors.
ghost use Rattle.std.specs.Prelude.{◌≡◌, ◌++◌, IfOk, OnOk, OnErr, map, nat_lt};
ghost use Rattle.std.specs.List.{flat_map, take_while};
ghost use Rattle.plugin_trait.specs.PlacedLines.{placed_at};
ghost use Rattle.monitor_lines.specs.ErrorTexts.{text_of_error};
ghost use Rattle.plug_monitor.specs.ErrorNotes.{lines_of_note, place_of};

use crate::error_note::ErrorNote;
use circular_buffer::HeapCircularBuffer;
use monitor_lines::MonitorError;
use plugin_notes::{LineNote, PacketNote, push_line};
use plugin_trait::Line;
use std::alloc::{AllocError, Global};

/// Appends the lines of the errors below a position. Out of memory the lines are unchanged.
pub(crate) fn push_lines_below(
    lines: &mut Vec<Line>,
    notes: &HeapCircularBuffer<ErrorNote>,
    mark: u64,
) -> Result<(), AllocError>
    ensures ok { OnOk result (lines.new.items ≡ lines.old.items
        ++ flat_map lines_of_note (take_while (λ note. nat_lt (place_of note) mark) notes.now.items)) }
    ensures err { OnErr result (lines.new.items ≡ lines.old.items) }
{
    let mut more = lines_below(*lines.allocator(), notes, mark)?;
    lines.append(&mut more)?;
    Ok(())
}

// The lines of the errors below a position.
fn lines_below(
    alloc: Global,
    notes: &HeapCircularBuffer<ErrorNote>,
    mark: u64,
) -> Result<Vec<Line>, AllocError>
    ensures { IfOk result (λ lines. lines.items
        ≡ flat_map lines_of_note (take_while (λ note. nat_lt (place_of note) mark) notes.now.items)) }
{
    let mut lines = Vec::new(alloc);
    for note in notes.iter() {
        if note.at() >= mark {
            break;
        }
        push_errors(&mut lines, note.at, note.errors.as_slice())?;
    }
    Ok(lines)
}

// Appends the lines of the errors that are known at a position.
fn push_errors(lines: &mut Vec<Line>, at: u64, errors: &[MonitorError]) -> Result<(), AllocError>
    ensures { OnOk result (lines.new.items ≡ lines.old.items ++ placed_at at (map text_of_error errors.now)) }
{
    for error in errors {
        let line = error.line(*lines.allocator())?;
        push_line(lines, at, line.text)?;
    }
    Ok(())
}
