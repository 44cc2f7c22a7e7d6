//! The summary of `info` as one JSON object.
ghost use Rattle.std.specs.Prelude.{◌≡◌, ◌<◌, ◌++◌, ◌∷◌, [], List, IfOk, OnOk, map, option_map};
ghost use Rattle.std.specs.List.{flat_map};
ghost use Rattle.std.specs.Option.{option_copied};
ghost use Rattle.std.specs.String.{string_bytes};
ghost use Rattle.ts_packet.specs.declared.cell.Cell.{Cell as GivenCell};
ghost use Rattle.ts_packet.specs.Cells.{live_packets};
ghost use Rattle.ts_packet.specs.declared.numbers.TheConstants.{PID_COUNT};
ghost use Rattle.ts_psi.specs.PsiTables.{component_item, pmt_held};
ghost use Rattle.plugin_notes.specs.PidPackets.{numbers_below};
ghost use Rattle.plugin_trait.specs.PlacedLines.{placed_at};
ghost use Rattle.plug_psi.specs.InForce.{pat_of, pmt_of, services_in};
ghost use Rattle.plug_info_texts.specs.EitTexts.{eit_json};
ghost use Rattle.plug_info_texts.specs.InfoJson;
ghost use Rattle.plug_info_texts.specs.InfoJson.{after_comma};
ghost use Rattle.plug_info.specs.InfoRule.{component_object, json_on, pid_objects, scene_of, service_object};
ghost use Rattle.named_services.specs.SdtInForce.{items_in, sdt_of};
ghost use Rattle.plug_info.specs.CaSystems.{program_descriptors, system_ids};
ghost use Rattle.plug_info.specs.SdtStatus.{service_status};
ghost use Rattle.plug_info_state.specs.EitSections.{eit_of};
ghost use Rattle.plug_info_state.specs.Tracked.{Tracks};
ghost use Rattle.plug_info.specs.UsesOf.{AreUses};

use crate::ca_system::system_ids;
use crate::cat_lines::systems_json;
use crate::network_names::names_json;
use crate::pid_uses::PidUses;
use crate::service_status::{program_descriptors, service_status};
use crate::summary::{
    numbers_shown, pcr_pid_in, sdt_stream_id, service_packets, stream_numbers, uses_of,
};
use crate::users::{components_of, services_of, users_of};
use named_services::service_body;
use plug_info_state::Tracker;
use plug_info_texts::json_texts::{
    component_head, component_tail, service_head, service_tail, stream_json,
};
use plug_info_texts::{
    PidNumbers, Scene, array, eit_json, marks_json, number_or_null, portion_json, push_item,
    service_marks_json, troubles_json, widened,
};
use plug_psi::number_and_pid;
use plugin_notes::push_line;
use plugin_trait::{Line, LineText};
use std::alloc::{AllocError, Global};
use ts_packet::PID_COUNT;
use ts_psi::{Component, Pmt};

/// Appends the object as a line: the stream, the network and the bouquets, the services in force with their components, and the other PIDs.
pub fn push_json(lines: &mut Vec<Line>, cut: u64, tracker: &Tracker) -> Result<(), AllocError>
    ensures { OnOk result ((cells : List GivenCell) → Tracks tracker.now cells
        → lines.new.items ≡ lines.old.items ++ placed_at cut (json_on cells ∷ [])) }
{
    let alloc = *lines.allocator();
    let text = whole_json(alloc, tracker)?;
    push_line(lines, cut, text)?;
    Ok(())
}

// The whole object.
fn whole_json(alloc: Global, tracker: &Tracker) -> Result<LineText, AllocError>
    ensures { IfOk result (λ text. (cells : List GivenCell) → Tracks tracker.now cells → text ≡ json_on cells) }
{
    let numbers = stream_numbers(tracker);
    let scene = Scene {
        whole: numbers.packets,
        extent: numbers.extent,
        rate: numbers.rate,
    };
    let stream = stream_json(alloc, &numbers)?;
    let sdt = number_or_null(alloc, widened(sdt_stream_id(tracker)))?;
    let names = names_json(alloc, tracker)?;
    let sdt = format!(in alloc; "{sdt}{names}")?;
    let cas = systems_json(alloc, tracker)?;
    let services = services_json(alloc, tracker, &scene)?;
    let pids = pids_json(alloc, tracker, &scene)?;
    let text = format!(in alloc;
        "{{\"stream\":{stream},\"sdt_transport_stream_id\":{sdt},\"ca\":{cas},\"services\":{services},\"pids\":{pids}}}"
    )?;
    Ok(LineText::of(text))
}

// The array of the services of the PAT in force.
fn services_json(alloc: Global, tracker: &Tracker, scene: &Scene) -> Result<String, AllocError>
    ensures { IfOk result (λ text. (cells : List GivenCell) → Tracks tracker.now cells → scene.now ≡ scene_of cells
        → string_bytes text ≡ InfoJson.array (map (service_object cells) (services_in (pat_of (live_packets cells))))) }
{
    let mut items = String::new(alloc);
    push_services(alloc, &mut items, tracker, scene)?;
    let text = array(alloc, &items)?;
    Ok(text)
}

// Appends the services to the items.
fn push_services(
    alloc: Global,
    items: &mut String,
    tracker: &Tracker,
    scene: &Scene,
) -> Result<(), AllocError>
    ensures { OnOk result ((cells : List GivenCell) → Tracks tracker.now cells → scene.now ≡ scene_of cells
        → string_bytes items.new ≡ string_bytes items.old
        ++ flat_map (λ s. after_comma (service_object cells s)) (services_in (pat_of (live_packets cells)))) }
{
    let entries = services_of(&tracker.force);
    for service in entries {
        let (id, pid) = number_and_pid(service);
        let text = service_json(alloc, tracker, scene, id, pid)?;
        push_item(items, &text)?;
    }
    Ok(())
}

// The object of a service.
fn service_json(
    alloc: Global,
    tracker: &Tracker,
    scene: &Scene,
    id: u16,
    pid: u16,
) -> Result<String, AllocError>
    ensures { IfOk result (λ text. (cells : List GivenCell) → Tracks tracker.now cells → scene.now ≡ scene_of cells
        → string_bytes text ≡ service_object cells (id, pid)) }
{
    let pmt = tracker.force.pmt(id);
    let head = service_head(alloc, id, service_body(tracker.sdt_in_force(), id))?;
    let packets = service_packets(tracker, pmt);
    let components = components_json(alloc, tracker, scene, pmt)?;
    let tail = service_tail(alloc, scene, pid, pcr_pid_in(pmt), packets, &components)?;
    let marks = service_marks(alloc, tracker, id, pmt)?;
    let text = format!(in alloc; "{head}{marks}{tail}")?;
    Ok(text)
}

// What else it has: its CA_system_ids, what the SDT says of its access and its state, and its EIT sections.
fn service_marks(
    alloc: Global,
    tracker: &Tracker,
    id: u16,
    pmt: Option<&Pmt>,
) -> Result<String, AllocError>
    ensures { IfOk result (λ text. (cells : List GivenCell) → Tracks tracker.now cells
        → option_map pmt_held (option_copied pmt.entry) ≡ pmt_of id (live_packets cells)
        → string_bytes text ≡ InfoJson.service_marks (system_ids (program_descriptors (pmt_of id (live_packets cells))))
        (service_status (sdt_of (live_packets cells)) id) ++ eit_json (eit_of id (live_packets cells))) }
{
    let ids = system_ids(alloc, program_descriptors(pmt))?;
    let status = service_status(tracker.sdt_in_force(), id);
    let marks = service_marks_json(alloc, &ids, status)?;
    let eit = eit_json(alloc, tracker.eit_of(id))?;
    let text = format!(in alloc; "{marks}{eit}")?;
    Ok(text)
}

// The array of the components of a PMT.
fn components_json(
    alloc: Global,
    tracker: &Tracker,
    scene: &Scene,
    pmt: Option<&Pmt>,
) -> Result<String, AllocError>
    ensures { IfOk result (λ text. (cells : List GivenCell) → Tracks tracker.now cells → scene.now ≡ scene_of cells
        → string_bytes text ≡ InfoJson.array (map (component_object cells) (items_in (option_map pmt_held (option_copied pmt.entry))))) }
{
    let mut items = String::new(alloc);
    push_components(alloc, &mut items, tracker, scene, components_of(pmt))?;
    let text = array(alloc, &items)?;
    Ok(text)
}

// Appends components to the items.
fn push_components(
    alloc: Global,
    items: &mut String,
    tracker: &Tracker,
    scene: &Scene,
    components: &[Component],
) -> Result<(), AllocError>
    ensures { OnOk result ((cells : List GivenCell) → Tracks tracker.now cells → scene.now ≡ scene_of cells
        → string_bytes items.new ≡ string_bytes items.old
        ++ flat_map (λ c. after_comma (component_object cells (component_item c))) components.now) }
{
    for component in components {
        let text = component_json(alloc, tracker, scene, component)?;
        push_item(items, &text)?;
    }
    Ok(())
}

// The object of a component.
fn component_json(
    alloc: Global,
    tracker: &Tracker,
    scene: &Scene,
    component: &Component,
) -> Result<String, AllocError>
    ensures { IfOk result (λ text. (cells : List GivenCell) → Tracks tracker.now cells → scene.now ≡ scene_of cells
        → string_bytes text ≡ component_object cells (component_item component.now)) }
{
    let numbers = tracker.counts.numbers_on(component.pid);
    let users = users_of(&tracker.force, component.pid);
    let head = component_head(alloc, component.pid, component.stream_type)?;
    let marks = component_marks(alloc, component)?;
    let tail = component_tail(alloc, scene, &numbers, users)?;
    let text = format!(in alloc; "{head}{marks}{tail}")?;
    Ok(text)
}

// Its languages, codecs, audio_type and CA_system_ids.
fn component_marks(alloc: Global, component: &Component) -> Result<String, AllocError>
    ensures { IfOk result (λ text. string_bytes text
        ≡ InfoJson.component_marks (component_item component.now).descriptors (system_ids (component_item component.now).descriptors)) }
{
    let descriptors = component.descriptors.as_slice();
    let ids = system_ids(alloc, descriptors)?;
    let text = marks_json(alloc, descriptors, &ids)?;
    Ok(text)
}

// The array of the PIDs that have packets and are not a component's.
fn pids_json(alloc: Global, tracker: &Tracker, scene: &Scene) -> Result<String, AllocError>
    ensures { IfOk result (λ text. (cells : List GivenCell) → Tracks tracker.now cells → scene.now ≡ scene_of cells
        → string_bytes text ≡ InfoJson.array (flat_map (pid_objects cells) (numbers_below PID_COUNT))) }
{
    let mut items = String::new(alloc);
    push_pids(alloc, &mut items, tracker, scene)?;
    let text = array(alloc, &items)?;
    Ok(text)
}

// Appends them to the items.
fn push_pids(
    alloc: Global,
    items: &mut String,
    tracker: &Tracker,
    scene: &Scene,
) -> Result<(), AllocError>
    ensures { OnOk result ((cells : List GivenCell) → Tracks tracker.now cells → scene.now ≡ scene_of cells
        → string_bytes items.new ≡ string_bytes items.old
        ++ flat_map (λ pid. flat_map after_comma (pid_objects cells pid)) (numbers_below PID_COUNT)) }
{
    let uses = uses_of(alloc, tracker)?;
    push_each_pid(alloc, items, tracker, &uses, scene)?;
    Ok(())
}

// Appends them to the items, by what they are used for.
fn push_each_pid(
    alloc: Global,
    items: &mut String,
    tracker: &Tracker,
    uses: &PidUses,
    scene: &Scene,
) -> Result<(), AllocError>
    ensures { OnOk result ((cells : List GivenCell) → Tracks tracker.now cells → AreUses uses.now (live_packets cells)
        → scene.now ≡ scene_of cells
        → string_bytes items.new ≡ string_bytes items.old
        ++ flat_map (λ pid. flat_map after_comma (pid_objects cells pid)) (numbers_below PID_COUNT)) }
{
    for pid in 0..PID_COUNT {
        push_pid(alloc, items, tracker, uses, scene, pid)?;
    }
    Ok(())
}

// Appends a PID to the items, if it has packets and is not a component's.
fn push_pid(
    alloc: Global,
    items: &mut String,
    tracker: &Tracker,
    uses: &PidUses,
    scene: &Scene,
    pid: u16,
) -> Result<(), AllocError>
    requires on_pid { pid < PID_COUNT }
    ensures { OnOk result ((cells : List GivenCell) → Tracks tracker.now cells → AreUses uses.now (live_packets cells)
        → scene.now ≡ scene_of cells
        → string_bytes items.new ≡ string_bytes items.old ++ flat_map after_comma (pid_objects cells pid)) }
{
    let Some(numbers) = numbers_shown(tracker, pid) else {
        return Ok(());
    };
    let name = uses.name(&tracker.force, pid);
    let text = pid_json(alloc, name, scene, pid, &numbers)?;
    push_item(items, &text)?;
    Ok(())
}

// The object of a PID.
fn pid_json(
    alloc: Global,
    name: &str,
    scene: &Scene,
    pid: u16,
    numbers: &PidNumbers,
) -> Result<String, AllocError>
    ensures { IfOk result (λ text. string_bytes text
        ≡ InfoJson.pid_json pid name.now (InfoJson.portion_json scene.now numbers.now.packets) numbers.now) }
{
    let portion = portion_json(alloc, scene, numbers.packets)?;
    let troubles = troubles_json(alloc, numbers)?;
    let text = format!(in alloc; "{{\"pid\":{pid},\"use\":\"{name}\",{portion}{troubles}}}")?;
    Ok(text)
}
