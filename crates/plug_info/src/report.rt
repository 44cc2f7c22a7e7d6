//! The report of `info` at the end.
ghost use Rattle.std.specs.Prelude.{◌≡◌, ◌++◌, List, OnOk};
ghost use Rattle.ts_packet.specs.declared.cell.Cell.{Cell as GivenCell};
ghost use Rattle.plugin_trait.specs.PlacedLines.{placed_at};
ghost use Rattle.plug_info.specs.InfoRule.{report_in};
ghost use Rattle.plug_info_state.specs.Tracked.{Tracks};

use crate::json::push_json;
use crate::summary::push_summary;
use plug_info_state::Tracker;
use plugin_trait::Line;
use std::alloc::AllocError;

/// Appends the report, as one JSON object if that is asked for. Out of memory it returns `AllocError`.
pub fn push_report(
    lines: &mut Vec<Line>,
    cut: u64,
    tracker: &Tracker,
    json: bool,
) -> Result<(), AllocError>
    ensures { OnOk result ((cells : List GivenCell) → Tracks tracker.now cells
        → lines.new.items ≡ lines.old.items ++ placed_at cut (report_in json cells)) }
{
    if json {
        push_json(lines, cut, tracker)?;
        return Ok(());
    }
    push_summary(lines, cut, tracker)?;
    Ok(())
}
