//! The summary of `analyze` as lines.
ghost use Rattle.std.specs.Prelude.{◌≡◌, ◌<◌, ◌++◌, ◌∷◌, [], ℕ, List, IfOk, OnOk, length, map, if◌then◌else◌};
ghost use Rattle.std.specs.Fmt.{decimal};
ghost use Rattle.std.specs.List.{All};
ghost use Rattle.ts_packet.specs.declared.cell.Cell.{Cell as GivenCell};
ghost use Rattle.ts_packet.specs.Cells.{live_packets};
ghost use Rattle.ts_packet.specs.Header.{pid_of};
ghost use Rattle.plugin_trait.specs.PlacedLines.{placed_at};
ghost use Rattle.plug_analyze.specs.AnalyzeRule.{head_lines, pid_text, counts_on, pids_with, service_text, services_in_force, summary_on};
ghost use Rattle.plugin_notes.specs.Tallies.{IsCounted};
ghost use Rattle.plug_analyze.specs.TotalsOf.{AreCounted};

use crate::service_count::ServiceCount;
use crate::totals::Totals;
use plugin_notes::push_line;
use plugin_trait::{Line, LineText};
use std::alloc::{AllocError, Global};
use ts_packet::{NULL_PID, PID_COUNT};

/// Appends the summary: the numbers of all packets, the PIDs, and the services in force.
pub fn push_summary(
    lines: &mut Vec<Line>,
    cut: u64,
    totals: &Totals,
    services: &[ServiceCount],
) -> Result<(), AllocError>
    ensures { OnOk result ((cells : List GivenCell) → AreCounted totals.now cells → services.now ≡ services_in_force (live_packets cells)
        → lines.new.items ≡ lines.old.items ++ placed_at cut (summary_on cells)) }
{
    let pids = pids_with_packets(*lines.allocator(), totals)?;
    push_head(lines, cut, totals, pids.len())?;
    push_pids(lines, cut, totals, &pids)?;
    push_services(lines, cut, services)
}

// The PIDs that have packets, in ascending order.
fn pids_with_packets(alloc: Global, totals: &Totals) -> Result<Vec<u16>, AllocError>
    ensures pids { IfOk result (λ pids. (packets : List (List ℕ)) → IsCounted totals.now.packets (map pid_of packets)
        → pids.items ≡ pids_with packets) }
    ensures range { IfOk result (λ pids. All (λ pid. pid < PID_COUNT) pids.items) }
{
    let mut pids = Vec::new(alloc);
    for pid in 0..PID_COUNT {
        push_if(&mut pids, totals.packets_on(pid) != 0, pid)?;
    }
    Ok(pids)
}

// Appends a PID, if it has packets.
fn push_if(pids: &mut Vec<u16>, is_one: bool, pid: u16) -> Result<(), AllocError>
    ensures { OnOk result (pids.new.items ≡ pids.old.items ++ (if is_one then pid ∷ [] else [])) }
{
    if is_one {
        pids.push(pid)?;
    }
    Ok(())
}

// Appends the lines with the numbers of all packets.
fn push_head(
    lines: &mut Vec<Line>,
    cut: u64,
    totals: &Totals,
    pids: usize,
) -> Result<(), AllocError>
    ensures { OnOk result ((packets : List (List ℕ)) → IsCounted totals.now.packets (map pid_of packets) → pids ≡ length (pids_with packets)
        → lines.new.items ≡ lines.old.items ++ placed_at cut (head_lines packets)) }
{
    push_number(lines, cut, "packets ", totals.packets())?;
    push_number(lines, cut, "pids ", pids as u64)?;
    push_number(lines, cut, "nulls ", totals.packets_on(NULL_PID))
}

// Appends a line with these words and a number.
fn push_number(lines: &mut Vec<Line>, cut: u64, words: &str, number: u64) -> Result<(), AllocError>
    ensures { OnOk result (lines.new.items ≡ lines.old.items ++ placed_at cut ((words.now ++ decimal number) ∷ [])) }
{
    let alloc = *lines.allocator();
    let text = format!(in alloc; "{words}{number}")?;
    push_line(lines, cut, LineText::of(text))
}

// Appends the lines of PIDs.
fn push_pids(
    lines: &mut Vec<Line>,
    cut: u64,
    totals: &Totals,
    pids: &[u16],
) -> Result<(), AllocError>
    requires range { All (λ pid. pid < PID_COUNT) pids.now }
    ensures { OnOk result ((cells : List GivenCell) → AreCounted totals.now cells
        → lines.new.items ≡ lines.old.items ++ placed_at cut (map (λ pid. pid_text pid (counts_on pid cells)) pids.now)) }
{
    let alloc = *lines.allocator();
    for pid in pids {
        let text = totals.counts_on(*pid).text(alloc, *pid)?;
        push_line(lines, cut, text)?;
    }
    Ok(())
}

// Appends the lines of services.
fn push_services(
    lines: &mut Vec<Line>,
    cut: u64,
    services: &[ServiceCount],
) -> Result<(), AllocError>
    ensures { OnOk result (lines.new.items ≡ lines.old.items ++ placed_at cut (map service_text services.now)) }
{
    let alloc = *lines.allocator();
    for service in services {
        let text = service.text(alloc)?;
        push_line(lines, cut, text)?;
    }
    Ok(())
}
