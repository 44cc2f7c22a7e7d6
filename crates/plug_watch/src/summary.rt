//! The summary of `count`.
ghost use Rattle.std.specs.Prelude.{◌≡◌, ◌==◌, ◌++◌, ◌∷◌, [], ℕ, List, OnOk, length, map, if◌then◌else◌};
ghost use Rattle.std.specs.List.{flat_map};
ghost use Rattle.ts_packet.specs.Header.{pid_of};
ghost use Rattle.plugin_trait.specs.PlacedLines.{placed_at};
ghost use Rattle.plugin_notes.specs.Tallies.{IsCounted};
ghost use Rattle.plugin_notes.specs.PidPackets.{numbers_below};
ghost use Rattle.plug_watch.specs.CountRule.{pid_lines, pid_text, summary_on};

use plugin_notes::{Tally, push_line};
use plugin_trait::{Line, LineText};
use std::alloc::AllocError;
use ts_packet::PID_COUNT;

/// Appends the summary: a line for each PID that has packets, unless only the total is asked for, and then the total.
pub fn push_summary(
    lines: &mut Vec<Line>,
    cut: u64,
    tally: &Tally,
    total: bool,
) -> Result<(), AllocError>
    ensures { OnOk result ((packets : List (List ℕ)) → IsCounted tally.now (map pid_of packets)
        → lines.new.items ≡ lines.old.items ++ placed_at cut (summary_on total packets)) }
{
    if !total {
        push_pid_lines(lines, cut, tally)?;
    }
    let text = format!(in *lines.allocator(); "total {}", tally.total())?;
    push_line(lines, cut, LineText::of(text))
}

// Appends a line for each PID that has packets.
fn push_pid_lines(lines: &mut Vec<Line>, cut: u64, tally: &Tally) -> Result<(), AllocError>
    ensures { OnOk result ((packets : List (List ℕ)) → IsCounted tally.now (map pid_of packets)
        → lines.new.items ≡ lines.old.items ++ placed_at cut (flat_map (pid_lines packets) (numbers_below PID_COUNT))) }
{
    for pid in 0..PID_COUNT {
        push_pid_line(lines, cut, pid, tally.count_on(pid))?;
    }
    Ok(())
}

// Appends the line of a PID, if it has packets.
fn push_pid_line(lines: &mut Vec<Line>, cut: u64, pid: u16, count: u64) -> Result<(), AllocError>
    ensures { OnOk result (lines.new.items ≡ lines.old.items ++ placed_at cut (if count == 0 then [] else pid_text pid count ∷ [])) }
{
    if count == 0 {
        return Ok(());
    }
    let text = format!(in *lines.allocator(); "pid {pid} packets {count}")?;
    push_line(lines, cut, LineText::of(text))
}
