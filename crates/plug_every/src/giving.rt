//! The lines of a plugin up to a mark, with its summaries at the due packets below it.

ghost use Rattle.std.specs.Prelude.{◌≡◌, ◌≤◌, ◌<◌, ◌+◌, ◌^◌, ◌++◌, ◌∷◌, [], ℕ, List, OnOk, OnErr, length, take};
ghost use Rattle.ts_packet.specs.declared.cell.Cell.{Cell as GivenCell};
ghost use Rattle.plugin_trait.specs.LiveCount.{live_count};
ghost use Rattle.plugin_trait.specs.Marks.{AllowsMark};
ghost use Rattle.plugin_trait.specs.PlacedLines.{placed_at, placed_between};
ghost use Rattle.plug_every.specs.EveryRule.{every_rule, so_far_text, summed_up};
ghost use Rattle.plug_every.specs.EveryStands.{AllowsDue, MetAt, NotesDue};

use crate::due::Due;
use circular_buffer::HeapCircularBuffer;
use plugin_notes::{pop_below, push_line};
use plugin_trait::{Line, LineText, Plugin};
use std::alloc::AllocError;

/// Gives the plugin a mark. Appends its lines from the mark before it up to this one, and behind those of each due packet its
/// summary there. Out of memory the lines are unchanged, and the plugin may have passed the mark before it.
pub(crate) fn give<P: Plugin>(
    plugin: &mut P,
    due: &mut HeapCircularBuffer<Due>,
    counts: bool,
    written: u64,
    lines: &mut Vec<Line>,
) -> Result<(), AllocError>
    requires { AllowsDue (P.stands_for plugin.old) due.old.items written }
    ensures gives { (n : ℕ) (history : List GivenCell) (mark : ℕ) → NotesDue (P.stands_for plugin.old) n due.old.items history mark
        → mark ≤ written → written ≤ length history
        → OnOk result (NotesDue (P.stands_for plugin.new) n due.new.items history written
        × (lines.new.items ≡ lines.old.items ++ placed_between (every_rule n counts (P.rule plugin.old)) history mark written)) }
    ensures met { (n : ℕ) (history : List GivenCell) (mark : ℕ) → NotesDue (P.stands_for plugin.old) n due.old.items history mark
        → mark ≤ written → written ≤ length history → MetAt (P.stands_for plugin.new) history }
    ensures err { OnErr result (lines.new.items ≡ lines.old.items) }
    ensures same_rule { P.rule plugin.new ≡ P.rule plugin.old }
{
    let mut more = Vec::new(*lines.allocator());
    give_more(plugin, due, counts, written, &mut more)?;
    lines.append(&mut more)?;
    Ok(())
}

// The same; out of memory some lines may have been appended.
fn give_more<P: Plugin>(
    plugin: &mut P,
    due: &mut HeapCircularBuffer<Due>,
    counts: bool,
    written: u64,
    lines: &mut Vec<Line>,
) -> Result<(), AllocError>
    requires { AllowsDue (P.stands_for plugin.old) due.old.items written }
    ensures gives { (n : ℕ) (history : List GivenCell) (mark : ℕ) → NotesDue (P.stands_for plugin.old) n due.old.items history mark
        → mark ≤ written → written ≤ length history
        → OnOk result (NotesDue (P.stands_for plugin.new) n due.new.items history written
        × (lines.new.items ≡ lines.old.items ++ placed_between (every_rule n counts (P.rule plugin.old)) history mark written)) }
    ensures met { (n : ℕ) (history : List GivenCell) (mark : ℕ) → NotesDue (P.stands_for plugin.old) n due.old.items history mark
        → mark ≤ written → written ≤ length history → MetAt (P.stands_for plugin.new) history }
    ensures same_rule { P.rule plugin.new ≡ P.rule plugin.old }
{
    while let Some(next) = pop_below(due, written) {
        give_due(plugin, next, counts, lines)?;
    }
    plugin.note(written, lines)
}

// Gives the plugin a mark behind a due packet. Appends its lines up to there, and what is said behind that packet.
fn give_due<P: Plugin>(
    plugin: &mut P,
    due: Due,
    counts: bool,
    lines: &mut Vec<Line>,
) -> Result<(), AllocError>
    requires allowed { AllowsMark (P.stands_for plugin.old) (due.at + 1) }
    requires few { due.at + 1 < 2 ^ 64 }
    ensures gives { (history : List GivenCell) (mark : ℕ) → P.stands_for plugin.old history mark
        → mark ≤ due.at + 1 → due.at + 1 ≤ length history → due.seen ≡ live_count (take (due.at + 1) history)
        → OnOk result (P.stands_for plugin.new history (due.at + 1)
        × (lines.new.items ≡ lines.old.items ++ (placed_between (P.rule plugin.old) history mark (due.at + 1)
        ++ placed_at due.at (summed_up counts (P.rule plugin.old) (take (due.at + 1) history))))) }
    ensures met { (history : List GivenCell) (mark : ℕ) → P.stands_for plugin.old history mark
        → mark ≤ due.at + 1 → due.at + 1 ≤ length history → MetAt (P.stands_for plugin.new) history }
    ensures same_rule { P.rule plugin.new ≡ P.rule plugin.old }
{
    plugin.note(due.at + 1, lines)?;
    if counts {
        push_so_far(lines, due)?;
    }
    plugin.summary(due.at, lines)
}

// Appends the line that says how many packets were seen.
fn push_so_far(lines: &mut Vec<Line>, due: Due) -> Result<(), AllocError>
    ensures { OnOk result (lines.new.items ≡ lines.old.items ++ placed_at due.at (so_far_text due.seen ∷ [])) }
{
    let text = format!(in *lines.allocator(); "so far {} packets", due.seen)?;
    push_line(lines, due.at, LineText::of(text))
}
