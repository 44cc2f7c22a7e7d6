//! The lines and the summary of `rate`.
ghost use Rattle.std.specs.Prelude.{◌≡◌, ◌++◌, ◌∷◌, [], IfOk, OnOk, OnErr, nat_lt};
ghost use Rattle.std.specs.List.{flat_map, take_while};
ghost use Rattle.std.specs.String.{string_bytes};
ghost use Rattle.plugin_trait.specs.PlacedLines.{placed_at};
ghost use Rattle.plug_rate.specs.Measures.{place_of};
ghost use Rattle.plug_rate.specs.RateTexts.{lines_of_judged, measure_text, number_or_none, summary_text};

use crate::judged::Judged;
use crate::measure::Measure;
use crate::sums::Sums;
use circular_buffer::HeapCircularBuffer;
use plugin_notes::{PacketNote, push_line};
use plugin_trait::{Line, LineText};
use std::alloc::{AllocError, Global};

/// Appends the lines of the measurements below a position. Out of memory the lines are unchanged.
pub fn push_lines_below(
    lines: &mut Vec<Line>,
    notes: &HeapCircularBuffer<Judged>,
    mark: u64,
) -> Result<(), AllocError>
    ensures ok { OnOk result (lines.new.items ≡ lines.old.items
        ++ flat_map lines_of_judged (take_while (λ note. nat_lt (place_of note) mark) notes.now.items)) }
    ensures err { OnErr result (lines.new.items ≡ lines.old.items) }
{
    let mut more = lines_below(*lines.allocator(), notes, mark)?;
    lines.append(&mut more)?;
    Ok(())
}

// The lines of the measurements below a position.
fn lines_below(
    alloc: Global,
    notes: &HeapCircularBuffer<Judged>,
    mark: u64,
) -> Result<Vec<Line>, AllocError>
    ensures { IfOk result (λ lines. lines.items
        ≡ flat_map lines_of_judged (take_while (λ note. nat_lt (place_of note) mark) notes.now.items)) }
{
    let mut lines = Vec::new(alloc);
    for note in notes.iter() {
        if note.at() >= mark {
            break;
        }
        push_judged(&mut lines, note)?;
    }
    Ok(lines)
}

// Appends the line of a measurement, where it has one.
fn push_judged(lines: &mut Vec<Line>, judged: &Judged) -> Result<(), AllocError>
    ensures { OnOk result (lines.new.items ≡ lines.old.items ++ lines_of_judged judged.now) }
{
    let Some(ending) = judged.verdict.ending() else {
        return Ok(());
    };
    let text = measure_text(*lines.allocator(), judged.measure, ending)?;
    push_line(lines, judged.measure.at, text)
}

// The text of a measurement, with what stands at its end.
fn measure_text(alloc: Global, measure: Measure, ending: &str) -> Result<LineText, AllocError>
    ensures { IfOk result (λ text. text ≡ measure_text measure ending.now) }
{
    let text = format!(in alloc;
        "packet {} time {} bitrate {}{ending}",
        measure.at, measure.time, measure.bitrate
    )?;
    Ok(LineText::of(text))
}

/// Appends the summary: how many measurements there were, and the least and the greatest bit rate.
pub fn push_summary(lines: &mut Vec<Line>, cut: u64, sums: &Sums) -> Result<(), AllocError>
    ensures { OnOk result (lines.new.items ≡ lines.old.items
        ++ placed_at cut (summary_text sums.now.count sums.now.least sums.now.greatest ∷ [])) }
{
    let text = summary_text(*lines.allocator(), sums)?;
    push_line(lines, cut, text)
}

// The text of the summary.
fn summary_text(alloc: Global, sums: &Sums) -> Result<LineText, AllocError>
    ensures { IfOk result (λ text. text ≡ summary_text sums.now.count sums.now.least sums.now.greatest) }
{
    let least = number_or_none(alloc, sums.least)?;
    let greatest = number_or_none(alloc, sums.greatest)?;
    let text = format!(in alloc; "measured {} least {least} greatest {greatest}", sums.count)?;
    Ok(LineText::of(text))
}

// A number, or `none`.
fn number_or_none(alloc: Global, number: Option<u128>) -> Result<String, AllocError>
    ensures { IfOk result (λ text. string_bytes text ≡ number_or_none number) }
{
    let text = match number {
        Some(number) => format!(in alloc; "{number}")?,
        None => String::from_str(alloc, "none")?,
    };
    Ok(text)
}
