//! The lines of `timestamps`, packet by packet.
ghost use Rattle.std.specs.Prelude.{◌≡◌, ◌++◌, IfOk, OnOk, OnErr, nat_lt};
ghost use Rattle.std.specs.List.{flat_map, take_while};
ghost use Rattle.plugin_trait.specs.PlacedLines.{placed_at};
ghost use Rattle.plug_times.specs.StampTexts.{lines_of_stamp, place_of, value_text, value_texts};

use crate::shown::Shown;
use crate::stamp::Stamp;
use circular_buffer::HeapCircularBuffer;
use plugin_notes::{PacketNote, push_line};
use plugin_trait::{Line, LineText};
use std::alloc::{AllocError, Global};

/// Appends the lines of what packets below a position told. Out of memory the lines are unchanged.
pub fn push_lines_below(
    lines: &mut Vec<Line>,
    notes: &HeapCircularBuffer<Stamp>,
    mark: u64,
    shown: Shown,
) -> Result<(), AllocError>
    ensures ok { OnOk result (lines.new.items ≡ lines.old.items
        ++ flat_map (lines_of_stamp shown) (take_while (λ note. nat_lt (place_of note) mark) notes.now.items)) }
    ensures err { OnErr result (lines.new.items ≡ lines.old.items) }
{
    let mut more = lines_below(*lines.allocator(), notes, mark, shown)?;
    lines.append(&mut more)?;
    Ok(())
}

// The lines of what packets below a position told.
fn lines_below(
    alloc: Global,
    notes: &HeapCircularBuffer<Stamp>,
    mark: u64,
    shown: Shown,
) -> Result<Vec<Line>, AllocError>
    ensures { IfOk result (λ lines. lines.items
        ≡ flat_map (lines_of_stamp shown) (take_while (λ note. nat_lt (place_of note) mark) notes.now.items)) }
{
    let mut lines = Vec::new(alloc);
    for note in notes.iter() {
        if note.at() >= mark {
            break;
        }
        push_stamp(&mut lines, note, shown)?;
    }
    Ok(lines)
}

// Appends the lines of what a packet told: PCR, PTS, DTS.
fn push_stamp(lines: &mut Vec<Line>, stamp: &Stamp, shown: Shown) -> Result<(), AllocError>
    ensures { OnOk result (lines.new.items ≡ lines.old.items ++ lines_of_stamp shown stamp.now) }
{
    let (at, pid) = (stamp.at, stamp.pid);
    push_value(lines, at, pid, "pcr", stamp.clock, shown.clocks, shown.csv)?;
    push_value(
        lines,
        at,
        pid,
        "pts",
        stamp.times.presentation,
        shown.presentation,
        shown.csv,
    )?;
    push_value(
        lines,
        at,
        pid,
        "dts",
        stamp.times.decoding,
        shown.decoding,
        shown.csv,
    )?;
    Ok(())
}

// Appends the line of a value of a kind, where there is one and its kind is shown.
fn push_value(
    lines: &mut Vec<Line>,
    at: u64,
    pid: u16,
    kind: &str,
    value: Option<u64>,
    is_shown: bool,
    csv: bool,
) -> Result<(), AllocError>
    ensures { OnOk result (lines.new.items ≡ lines.old.items ++ placed_at at (value_texts csv kind.now is_shown at pid value)) }
{
    let Some(value) = value else {
        return Ok(());
    };
    if !is_shown {
        return Ok(());
    }
    let text = value_text(*lines.allocator(), csv, kind, at, pid, value)?;
    push_line(lines, at, text)
}

// The text of a value.
fn value_text(
    alloc: Global,
    csv: bool,
    kind: &str,
    at: u64,
    pid: u16,
    value: u64,
) -> Result<LineText, AllocError>
    ensures { IfOk result (λ text. text ≡ value_text csv kind.now at pid value) }
{
    let text = if csv {
        format!(in alloc; "{at},{pid},{kind},{value}")?
    } else {
        format!(in alloc; "packet {at} pid {pid} {kind} {value}")?
    };
    Ok(LineText::of(text))
}
