//! The conditional access systems of the CAT in force, as lines and as JSON.
ghost use Rattle.std.specs.Prelude.{◌≡◌, ◌++◌, ℕ, List, IfOk, OnOk, map};
ghost use Rattle.std.specs.List.{flat_map};
ghost use Rattle.std.specs.String.{string_bytes};
ghost use Rattle.ts_packet.specs.declared.cell.Cell.{Cell as GivenCell};
ghost use Rattle.ts_packet.specs.Cells.{live_packets};
ghost use Rattle.plugin_trait.specs.PlacedLines.{placed_at};
ghost use Rattle.plug_info_texts.specs.InfoJson;
ghost use Rattle.plug_info_texts.specs.InfoJson.{after_comma};
ghost use Rattle.plug_info.specs.CaSystems.{emm_systems};
ghost use Rattle.plug_info.specs.InfoRule.{system_line, system_object};
ghost use Rattle.plug_info_state.specs.Tracked.{Tracks};

use crate::ca_system::CaSystem;
use crate::pid_uses::emm_systems;
use plug_info_state::Tracker;
use plug_info_texts::{array, push_item};
use plugin_notes::push_line;
use plugin_trait::{Line, LineText};
use std::alloc::{AllocError, Global};

/// Appends the lines of the systems.
pub fn push_systems(lines: &mut Vec<Line>, cut: u64, tracker: &Tracker) -> Result<(), AllocError>
    ensures { OnOk result ((cells : List GivenCell) → Tracks tracker.now cells
        → lines.new.items ≡ lines.old.items ++ placed_at cut (map system_line (emm_systems (live_packets cells)))) }
{
    let alloc = *lines.allocator();
    let systems = systems_of(alloc, tracker)?;
    push_lines(lines, cut, &systems)?;
    Ok(())
}

// The systems of the CAT in force.
fn systems_of(alloc: Global, tracker: &Tracker) -> Result<Vec<CaSystem>, AllocError>
    ensures { IfOk result (λ systems. (cells : List GivenCell) → Tracks tracker.now cells → systems.items ≡ emm_systems (live_packets cells)) }
{
    let systems = emm_systems(alloc, tracker.others.cat.cat.as_ref())?;
    Ok(systems)
}

// Appends a line for each system.
fn push_lines(lines: &mut Vec<Line>, cut: u64, systems: &[CaSystem]) -> Result<(), AllocError>
    ensures { OnOk result (lines.new.items ≡ lines.old.items ++ placed_at cut (map system_line systems.now)) }
{
    let alloc = *lines.allocator();
    for system in systems {
        let text = system_text(alloc, system)?;
        push_line(lines, cut, text)?;
    }
    Ok(())
}

// The text of the line of a system.
fn system_text(alloc: Global, system: &CaSystem) -> Result<LineText, AllocError>
    ensures { IfOk result (λ text. text ≡ system_line system.now) }
{
    let text = format!(in alloc; "ca {} emm {}", system.id, system.pid)?;
    Ok(LineText::of(text))
}

/// The array of the systems.
pub fn systems_json(alloc: Global, tracker: &Tracker) -> Result<String, AllocError>
    ensures { IfOk result (λ text. (cells : List GivenCell) → Tracks tracker.now cells
        → string_bytes text ≡ InfoJson.array (map system_object (emm_systems (live_packets cells)))) }
{
    let systems = systems_of(alloc, tracker)?;
    let text = objects_json(alloc, &systems)?;
    Ok(text)
}

// The array of these systems.
fn objects_json(alloc: Global, systems: &[CaSystem]) -> Result<String, AllocError>
    ensures { IfOk result (λ text. string_bytes text ≡ InfoJson.array (map system_object systems.now)) }
{
    let mut items = String::new(alloc);
    push_objects(alloc, &mut items, systems)?;
    let text = array(alloc, &items)?;
    Ok(text)
}

// Appends an object for each system to the items.
fn push_objects(alloc: Global, items: &mut String, systems: &[CaSystem]) -> Result<(), AllocError>
    ensures { OnOk result (string_bytes items.new ≡ string_bytes items.old ++ flat_map after_comma (map system_object systems.now)) }
{
    for system in systems {
        let text = format!(in alloc; "{{\"id\":{},\"emm\":{}}}", system.id, system.pid)?;
        push_item(items, &text)?;
    }
    Ok(())
}
