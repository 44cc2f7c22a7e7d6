//! The summary of `timestamps`.
ghost use Rattle.std.specs.Prelude.{◌≡◌, ◌++◌, ℕ, List, OnOk};
ghost use Rattle.std.specs.List.{flat_map};
ghost use Rattle.plugin_trait.specs.PlacedLines.{placed_at};
ghost use Rattle.plugin_notes.specs.PidPackets.{numbers_below};
ghost use Rattle.plug_times.specs.ClockSteps.{IsStepped, clock_lines, kept_lines};
ghost use Rattle.plug_times.specs.declared.stamp.Stamp.{Stamp as GivenStamp};

use crate::clock_steps::ClockSteps;
use crate::limits::MICROSECOND;
use crate::step_row::StepRow;
use plugin_notes::push_line;
use plugin_trait::{Line, LineText};
use std::alloc::AllocError;
use ts_packet::PID_COUNT;

/// Appends a line for each PID that has PCRs, ascending.
pub fn push_clock_lines(lines: &mut Vec<Line>, cut: u64, row: &StepRow) -> Result<(), AllocError>
    ensures { OnOk result ((stamps : List GivenStamp) → IsStepped row.now stamps
        → lines.new.items ≡ lines.old.items ++ placed_at cut (flat_map (clock_lines stamps) (numbers_below PID_COUNT))) }
{
    for pid in 0..PID_COUNT {
        push_kept_line(lines, cut, pid, row.on(pid))?;
    }
    Ok(())
}

// Appends the line of a PID, if it has PCRs.
fn push_kept_line(
    lines: &mut Vec<Line>,
    cut: u64,
    pid: u16,
    kept: ClockSteps,
) -> Result<(), AllocError>
    ensures { OnOk result (lines.new.items ≡ lines.old.items ++ placed_at cut (kept_lines pid kept)) }
{
    if kept.count == 0 {
        return Ok(());
    }
    let text = format!(in *lines.allocator();
        "pid {pid} pcrs {} longest {} over40 {} over100 {}",
        kept.count,
        kept.longest / MICROSECOND,
        kept.over40,
        kept.over100
    )?;
    push_line(lines, cut, LineText::of(text))
}
