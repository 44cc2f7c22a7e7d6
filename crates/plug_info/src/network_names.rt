//! The names of the network and of bouquets, as lines and as JSON.
ghost use Rattle.std.specs.Prelude.{◌≡◌, ◌++◌, ℕ, List, IfOk, OnOk, codes, option_map};
ghost use Rattle.std.specs.List.{flat_map};
ghost use Rattle.std.specs.Option.{option_copied};
ghost use Rattle.std.specs.String.{string_bytes};
ghost use Rattle.ts_packet.specs.declared.cell.Cell.{Cell as GivenCell};
ghost use Rattle.ts_packet.specs.Cells.{live_packets};
ghost use Rattle.ts_si.specs.SiTables.{bat_held, nit_held};
ghost use Rattle.plugin_notes.specs.PidPackets.{numbers_below};
ghost use Rattle.plugin_trait.specs.PlacedLines.{placed_at};
ghost use Rattle.plug_info_texts.specs.InfoJson;
ghost use Rattle.plug_info_texts.specs.InfoJson.{after_comma};
ghost use Rattle.plug_info_state.specs.BatsInForce.{bat_of};
ghost use Rattle.plug_info_state.specs.Tracked.{Tracks};
ghost use Rattle.plug_info.specs.NetworkNames.{bouquet_lines, bouquet_objects, bouquets_of, name_lines, named_line, named_object, names_json, network_json, network_lines, objects_of};

use named_services::body_with;
use plug_info_state::{BOUQUET_COUNT, Tracker};
use plug_info_texts::{array, named_json, named_text, push_item};
use plugin_notes::push_line;
use plugin_trait::{Line, LineText};
use std::alloc::{AllocError, Global};
use ts_si::{Bat, Nit};

/// The tag of a network_name_descriptor (ETSI EN 300 468, 6.2.27).
const NETWORK_NAME: u8 = 0x40;

/// The tag of a bouquet_name_descriptor (ETSI EN 300 468, 6.2.4).
const BOUQUET_NAME: u8 = 0x47;

/// Appends the lines of the network and of the bouquets.
pub fn push_names(lines: &mut Vec<Line>, cut: u64, tracker: &Tracker) -> Result<(), AllocError>
    ensures { OnOk result ((cells : List GivenCell) → Tracks tracker.now cells
        → lines.new.items ≡ lines.old.items ++ placed_at cut (name_lines (live_packets cells))) }
{
    push_network(lines, cut, tracker.network())?;
    push_bouquets(lines, cut, tracker)?;
    Ok(())
}

// Appends the line of the network of a NIT.
fn push_network(lines: &mut Vec<Line>, cut: u64, nit: Option<&Nit>) -> Result<(), AllocError>
    ensures { OnOk result (lines.new.items ≡ lines.old.items
        ++ placed_at cut (network_lines (option_map nit_held (option_copied nit.entry)))) }
{
    let Some(nit) = nit else {
        return Ok(());
    };
    let alloc = *lines.allocator();
    let text = network_text(alloc, nit)?;
    push_line(lines, cut, text)?;
    Ok(())
}

// The text of the line of a network.
fn network_text(alloc: Global, nit: &Nit) -> Result<LineText, AllocError>
    ensures { IfOk result (λ text. text ≡ named_line (codes "network") NETWORK_NAME (nit_held nit.now)) }
{
    let name = body_with(NETWORK_NAME, nit.descriptors.as_slice());
    let text = named_text(alloc, "network", nit.network_id, name)?;
    Ok(text)
}

// Appends the lines of the bouquets.
fn push_bouquets(lines: &mut Vec<Line>, cut: u64, tracker: &Tracker) -> Result<(), AllocError>
    ensures { OnOk result ((cells : List GivenCell) → Tracks tracker.now cells
        → lines.new.items ≡ lines.old.items ++ placed_at cut (bouquets_of (live_packets cells))) }
{
    for id in 0..BOUQUET_COUNT {
        push_bouquet(lines, cut, tracker.bouquet(id))?;
    }
    Ok(())
}

// Appends the line of the bouquet of a BAT.
fn push_bouquet(lines: &mut Vec<Line>, cut: u64, bat: Option<&Bat>) -> Result<(), AllocError>
    ensures { OnOk result (lines.new.items ≡ lines.old.items
        ++ placed_at cut (bouquet_lines (option_map bat_held (option_copied bat.entry)))) }
{
    let Some(bat) = bat else {
        return Ok(());
    };
    let alloc = *lines.allocator();
    let text = bouquet_text(alloc, bat)?;
    push_line(lines, cut, text)?;
    Ok(())
}

// The text of the line of a bouquet.
fn bouquet_text(alloc: Global, bat: &Bat) -> Result<LineText, AllocError>
    ensures { IfOk result (λ text. text ≡ named_line (codes "bouquet") BOUQUET_NAME (bat_held bat.now)) }
{
    let name = body_with(BOUQUET_NAME, bat.descriptors.as_slice());
    let text = named_text(alloc, "bouquet", bat.bouquet_id, name)?;
    Ok(text)
}

/// The keys of the network and of the bouquets.
pub fn names_json(alloc: Global, tracker: &Tracker) -> Result<String, AllocError>
    ensures { IfOk result (λ text. (cells : List GivenCell) → Tracks tracker.now cells
        → string_bytes text ≡ names_json (live_packets cells)) }
{
    let network = network_json(alloc, tracker.network())?;
    let bouquets = bouquets_json(alloc, tracker)?;
    let text = format!(in alloc; ",\"network\":{network},\"bouquets\":{bouquets}")?;
    Ok(text)
}

// The object of the network of a NIT, or `null`.
fn network_json(alloc: Global, nit: Option<&Nit>) -> Result<String, AllocError>
    ensures { IfOk result (λ text. string_bytes text ≡ network_json (option_map nit_held (option_copied nit.entry))) }
{
    let text = match nit {
        Some(nit) => network_object(alloc, nit)?,
        None => String::from_str(alloc, "null")?,
    };
    Ok(text)
}

// The object of a network.
fn network_object(alloc: Global, nit: &Nit) -> Result<String, AllocError>
    ensures { IfOk result (λ text. string_bytes text ≡ named_object NETWORK_NAME (nit_held nit.now)) }
{
    let name = body_with(NETWORK_NAME, nit.descriptors.as_slice());
    let text = named_json(alloc, nit.network_id, name)?;
    Ok(text)
}

// The array of the bouquets.
fn bouquets_json(alloc: Global, tracker: &Tracker) -> Result<String, AllocError>
    ensures { IfOk result (λ text. (cells : List GivenCell) → Tracks tracker.now cells
        → string_bytes text ≡ InfoJson.array (objects_of (live_packets cells))) }
{
    let mut items = String::new(alloc);
    push_objects(alloc, &mut items, tracker)?;
    let text = array(alloc, &items)?;
    Ok(text)
}

// Appends the bouquets to the items.
fn push_objects(alloc: Global, items: &mut String, tracker: &Tracker) -> Result<(), AllocError>
    ensures { OnOk result ((cells : List GivenCell) → Tracks tracker.now cells
        → string_bytes items.new ≡ string_bytes items.old
        ++ flat_map (λ id. flat_map after_comma (bouquet_objects (bat_of id (live_packets cells)))) (numbers_below 65536)) }
{
    for id in 0..BOUQUET_COUNT {
        push_object(alloc, items, tracker.bouquet(id))?;
    }
    Ok(())
}

// Appends the bouquet of a BAT to the items.
fn push_object(alloc: Global, items: &mut String, bat: Option<&Bat>) -> Result<(), AllocError>
    ensures { OnOk result (string_bytes items.new ≡ string_bytes items.old
        ++ flat_map after_comma (bouquet_objects (option_map bat_held (option_copied bat.entry)))) }
{
    let Some(bat) = bat else {
        return Ok(());
    };
    let text = bouquet_object(alloc, bat)?;
    push_item(items, &text)?;
    Ok(())
}

// The object of a bouquet.
fn bouquet_object(alloc: Global, bat: &Bat) -> Result<String, AllocError>
    ensures { IfOk result (λ text. string_bytes text ≡ named_object BOUQUET_NAME (bat_held bat.now)) }
{
    let name = body_with(BOUQUET_NAME, bat.descriptors.as_slice());
    let text = named_json(alloc, bat.bouquet_id, name)?;
    Ok(text)
}
