//! The summary of `info` as lines.
ghost use Rattle.std.specs.Prelude.{◌≡◌, ◌<◌, ◌+◌, ◌*◌, ◌==◌, ◌&&◌, min, not, Some, None, ◌++◌, ◌∷◌, [], ℕ, List, IfOk, OnOk, length, map, option_map, fold, if◌then◌else◌};
ghost use Rattle.std.specs.List.{flat_map};
ghost use Rattle.std.specs.Option.{option_copied};
ghost use Rattle.std.specs.String.{string_bytes};
ghost use Rattle.ts_packet.specs.declared.cell.Cell.{Cell as GivenCell};
ghost use Rattle.ts_packet.specs.Cells.{live_packets};
ghost use Rattle.ts_packet.specs.declared.numbers.TheConstants.{PID_COUNT};
ghost use Rattle.ts_psi.specs.PatTables.{service_item};
ghost use Rattle.ts_psi.specs.PsiTables.{component_item, pmt_held};
ghost use Rattle.plugin_notes.specs.PidPackets.{numbers_below};
ghost use Rattle.plugin_trait.specs.PlacedLines.{placed_at};
ghost use Rattle.plug_psi.specs.InForce.{pat_of, pmt_of, services_in};
ghost use Rattle.plug_info.specs.InfoRule.{component_line, has_component, info_on, numbers_on, pcr_pid_in, pid_lines, scene_of, service_line, service_lines, service_packets, stream_of, stream_numbers, users_of};
ghost use Rattle.plug_info_texts.specs.InfoTexts.{pid_text, sdt_texts};
ghost use Rattle.named_services.specs.SdtInForce.{sdt_of};
ghost use Rattle.plug_info.specs.CaSystems.{program_descriptors, system_ids};
ghost use Rattle.plug_info.specs.SdtStatus.{service_status};
ghost use Rattle.plug_info_state.specs.EitSections.{eit_of};
ghost use Rattle.plug_info_state.specs.Tracked.{Tracks};
ghost use Rattle.plug_info.specs.UsesOf.{AreUses};
ghost use Rattle.plug_info_texts.specs.EitTexts.{eit_text};
ghost use Rattle.plug_info_texts.specs.InfoTexts;
ghost use Rattle.plugin_notes.specs.PidPackets.{packets_on};

use crate::ca_system::system_ids;
use crate::cat_lines::push_systems;
use crate::network_names::push_names;
use crate::pid_uses::PidUses;
use crate::service_status::{program_descriptors, service_status};
use crate::users::{components_of, has_component, services_of, users_of};
use named_services::service_body;
use plug_info_state::Tracker;
use plug_info_texts::line_texts::{
    component_head, component_tail, service_head, service_tail, stream_text,
};
use plug_info_texts::{
    PidNumbers, Scene, StreamNumbers, eit_text, marks_text, portion_text, service_marks_text,
    troubles_text,
};
use plug_psi::number_and_pid;
use plugin_notes::push_line;
use plugin_trait::{Line, LineText};
use std::alloc::{AllocError, Global};
use ts_packet::{NULL_PID, PID_COUNT};
use ts_psi::{Component, Pmt};

/// Appends the summary: the stream, the network and the bouquets, the services in force with their components, and the other PIDs.
pub fn push_summary(lines: &mut Vec<Line>, cut: u64, tracker: &Tracker) -> Result<(), AllocError>
    ensures { OnOk result ((cells : List GivenCell) → Tracks tracker.now cells
        → lines.new.items ≡ lines.old.items ++ placed_at cut (info_on cells)) }
{
    let numbers = stream_numbers(tracker);
    let scene = Scene {
        whole: numbers.packets,
        extent: numbers.extent,
        rate: numbers.rate,
    };
    let alloc = *lines.allocator();
    let text = stream_text(alloc, &numbers)?;
    push_line(lines, cut, text)?;
    push_sdt(lines, cut, numbers.stream_id, sdt_stream_id(tracker))?;
    push_names(lines, cut, tracker)?;
    push_systems(lines, cut, tracker)?;
    push_services(lines, cut, tracker, &scene)?;
    push_pids(lines, cut, tracker, &scene)?;
    Ok(())
}

/// The numbers of the whole stream.
pub fn stream_numbers(tracker: &Tracker) -> StreamNumbers
    ensures { (cells : List GivenCell) → Tracks tracker.now cells → result ≡ stream_numbers cells }
{
    StreamNumbers {
        packets: tracker.counts.packets(),
        extent: tracker.extent.positions,
        stream_id: tracker.stream_id(),
        rate: tracker.spans.rate(),
        breaks: tracker.spans.breaks(),
        nulls: tracker.counts.packets_on(NULL_PID),
        errored: tracker.counts.errored(),
        scrambled: tracker.counts.scrambled(),
        faults: tracker.counts.faults(),
    }
}

/// The transport_stream_id of the SDT in force.
pub fn sdt_stream_id(tracker: &Tracker) -> Option<u16>
    ensures { (cells : List GivenCell) → Tracks tracker.now cells → result ≡ stream_of (sdt_of (live_packets cells)) }
{
    match tracker.sdt_in_force() {
        Some(sdt) => Some(sdt.stream_id),
        None => None,
    }
}

// Appends a line on the SDT, if it is of another transport stream than the PAT.
fn push_sdt(
    lines: &mut Vec<Line>,
    cut: u64,
    pat: Option<u16>,
    sdt: Option<u16>,
) -> Result<(), AllocError>
    ensures { OnOk result (lines.new.items ≡ lines.old.items ++ placed_at cut (sdt_texts pat sdt)) }
{
    let Some(pat) = pat else {
        return Ok(());
    };
    let Some(sdt) = sdt else {
        return Ok(());
    };
    push_other(lines, cut, pat, sdt)?;
    Ok(())
}

// Appends a line on the SDT, if its transport_stream_id is another one than the PAT's.
fn push_other(lines: &mut Vec<Line>, cut: u64, pat: u16, sdt: u16) -> Result<(), AllocError>
    ensures { OnOk result (lines.new.items ≡ lines.old.items ++ placed_at cut (sdt_texts (Some pat) (Some sdt))) }
{
    if pat == sdt {
        return Ok(());
    }
    let alloc = *lines.allocator();
    let text = format!(in alloc; "sdt of transport_stream_id {sdt}")?;
    push_line(lines, cut, LineText::of(text))?;
    Ok(())
}

// Appends the lines of the services of the PAT in force.
fn push_services(
    lines: &mut Vec<Line>,
    cut: u64,
    tracker: &Tracker,
    scene: &Scene,
) -> Result<(), AllocError>
    ensures { OnOk result ((cells : List GivenCell) → Tracks tracker.now cells → scene.now ≡ scene_of cells
        → lines.new.items ≡ lines.old.items
        ++ placed_at cut (flat_map (service_lines cells) (services_in (pat_of (live_packets cells))))) }
{
    let entries = services_of(&tracker.force);
    for service in entries {
        let (id, pid) = number_and_pid(service);
        push_service(lines, cut, tracker, scene, id, pid)?;
    }
    Ok(())
}

// Appends the lines of a service.
fn push_service(
    lines: &mut Vec<Line>,
    cut: u64,
    tracker: &Tracker,
    scene: &Scene,
    id: u16,
    pid: u16,
) -> Result<(), AllocError>
    ensures { OnOk result ((cells : List GivenCell) → Tracks tracker.now cells → scene.now ≡ scene_of cells
        → lines.new.items ≡ lines.old.items ++ placed_at cut (service_lines cells (id, pid))) }
{
    let pmt = tracker.force.pmt(id);
    let alloc = *lines.allocator();
    let text = service_text(alloc, tracker, scene, id, pid, pmt)?;
    push_line(lines, cut, text)?;
    push_components(lines, cut, tracker, scene, id, components_of(pmt))?;
    Ok(())
}

// The text of the line of a service.
fn service_text(
    alloc: Global,
    tracker: &Tracker,
    scene: &Scene,
    id: u16,
    pid: u16,
    pmt: Option<&Pmt>,
) -> Result<LineText, AllocError>
    ensures { IfOk result (λ text. (cells : List GivenCell) → Tracks tracker.now cells → scene.now ≡ scene_of cells
        → option_map pmt_held (option_copied pmt.entry) ≡ pmt_of id (live_packets cells)
        → text ≡ service_line cells (id, pid)) }
{
    let body = service_body(tracker.sdt_in_force(), id);
    let packets = service_packets(tracker, pmt);
    let head = service_head(alloc, id, body)?;
    let tail = service_tail(alloc, scene, pid, pcr_pid_in(pmt), packets)?;
    let marks = service_marks(alloc, tracker, id, pmt)?;
    let text = format!(in alloc; "{head}{tail}{marks}")?;
    Ok(LineText::of(text))
}

// What else its line has: its CA_system_ids, what the SDT says of its access and its state, and its EIT sections.
fn service_marks(
    alloc: Global,
    tracker: &Tracker,
    id: u16,
    pmt: Option<&Pmt>,
) -> Result<String, AllocError>
    ensures { IfOk result (λ text. (cells : List GivenCell) → Tracks tracker.now cells
        → option_map pmt_held (option_copied pmt.entry) ≡ pmt_of id (live_packets cells)
        → string_bytes text ≡ InfoTexts.service_marks (system_ids (program_descriptors (pmt_of id (live_packets cells))))
        (service_status (sdt_of (live_packets cells)) id) ++ eit_text (eit_of id (live_packets cells))) }
{
    let ids = system_ids(alloc, program_descriptors(pmt))?;
    let status = service_status(tracker.sdt_in_force(), id);
    let marks = service_marks_text(alloc, &ids, status)?;
    let eit = eit_text(alloc, tracker.eit_of(id))?;
    let text = format!(in alloc; "{marks}{eit}")?;
    Ok(text)
}

/// The PCR_PID of a PMT.
pub fn pcr_pid_in(pmt: Option<&Pmt>) -> Option<u64>
    ensures { result ≡ pcr_pid_in (option_map pmt_held (option_copied pmt.entry)) }
{
    match pmt {
        Some(pmt) => Some(u64::from(pmt.pcr_pid)),
        None => None,
    }
}

/// How many packets are on the PIDs of the components of a PMT, each PID counted once.
pub fn service_packets(tracker: &Tracker, pmt: Option<&Pmt>) -> u64
    ensures { (cells : List GivenCell) → Tracks tracker.now cells
        → result ≡ service_packets (option_map pmt_held (option_copied pmt.entry)) (live_packets cells) }
{
    let all = tracker.counts.packets();
    let mut packets: u64 = 0;
    for pid in 0..PID_COUNT {
        packets = plus(
            packets,
            packets_if(tracker, has_component(pmt, pid), pid),
            all,
        );
    }
    packets
}

// How many packets are on a PID, if they are counted; else 0.
fn packets_if(tracker: &Tracker, is_one: bool, pid: u16) -> u64
    requires on_pid { pid < PID_COUNT }
    ensures { (cells : List GivenCell) → Tracks tracker.now cells → result ≡ (if is_one then packets_on pid (live_packets cells) else 0) }
{
    if is_one {
        tracker.counts.packets_on(pid)
    } else {
        0
    }
}

// A sum of numbers of packets, which are no more than all packets.
fn plus(a: u64, b: u64, all: u64) -> u64
    ensures { result ≡ min (a + b) all }
{
    a.saturating_add(b).min(all)
}

// Appends the lines of components.
fn push_components(
    lines: &mut Vec<Line>,
    cut: u64,
    tracker: &Tracker,
    scene: &Scene,
    service: u16,
    components: &[Component],
) -> Result<(), AllocError>
    ensures { OnOk result ((cells : List GivenCell) → Tracks tracker.now cells → scene.now ≡ scene_of cells
        → lines.new.items ≡ lines.old.items ++ placed_at cut (map (λ c. component_line cells service (component_item c)) components.now)) }
{
    let alloc = *lines.allocator();
    for component in components {
        let text = component_text(alloc, tracker, scene, service, component)?;
        push_line(lines, cut, text)?;
    }
    Ok(())
}

// The text of the line of a component.
fn component_text(
    alloc: Global,
    tracker: &Tracker,
    scene: &Scene,
    service: u16,
    component: &Component,
) -> Result<LineText, AllocError>
    ensures { IfOk result (λ text. (cells : List GivenCell) → Tracks tracker.now cells → scene.now ≡ scene_of cells
        → text ≡ component_line cells service (component_item component.now)) }
{
    let numbers = tracker.counts.numbers_on(component.pid);
    let users = users_of(&tracker.force, component.pid);
    let head = component_head(alloc, component.pid, service, component.stream_type)?;
    let marks = component_marks(alloc, component)?;
    let tail = component_tail(alloc, scene, &numbers, users)?;
    let text = format!(in alloc; "{head}{marks}{tail}")?;
    Ok(LineText::of(text))
}

// Its codecs, languages, audio_type and CA_system_ids.
fn component_marks(alloc: Global, component: &Component) -> Result<String, AllocError>
    ensures { IfOk result (λ text. string_bytes text
        ≡ InfoTexts.marks_text (component_item component.now).descriptors (system_ids (component_item component.now).descriptors)) }
{
    let descriptors = component.descriptors.as_slice();
    let ids = system_ids(alloc, descriptors)?;
    let text = marks_text(alloc, descriptors, &ids)?;
    Ok(text)
}

// Appends the lines of the PIDs that have packets and are not a component's.
fn push_pids(
    lines: &mut Vec<Line>,
    cut: u64,
    tracker: &Tracker,
    scene: &Scene,
) -> Result<(), AllocError>
    ensures { OnOk result ((cells : List GivenCell) → Tracks tracker.now cells → scene.now ≡ scene_of cells
        → lines.new.items ≡ lines.old.items ++ placed_at cut (flat_map (pid_lines cells) (numbers_below PID_COUNT))) }
{
    let alloc = *lines.allocator();
    let uses = uses_of(alloc, tracker)?;
    push_each_pid(lines, cut, tracker, &uses, scene)?;
    Ok(())
}

/// What the PIDs are used for that are not a component's.
pub fn uses_of(alloc: Global, tracker: &Tracker) -> Result<PidUses, AllocError>
    ensures { IfOk result (λ uses. (cells : List GivenCell) → Tracks tracker.now cells → AreUses uses (live_packets cells)) }
{
    PidUses::of(alloc, &tracker.force, tracker.others.cat.cat.as_ref())
}

// Appends their lines, by what they are used for.
fn push_each_pid(
    lines: &mut Vec<Line>,
    cut: u64,
    tracker: &Tracker,
    uses: &PidUses,
    scene: &Scene,
) -> Result<(), AllocError>
    ensures { OnOk result ((cells : List GivenCell) → Tracks tracker.now cells → AreUses uses.now (live_packets cells)
        → scene.now ≡ scene_of cells
        → lines.new.items ≡ lines.old.items ++ placed_at cut (flat_map (pid_lines cells) (numbers_below PID_COUNT))) }
{
    for pid in 0..PID_COUNT {
        push_pid(lines, cut, tracker, uses, scene, pid)?;
    }
    Ok(())
}

/// The numbers of a PID, if it has packets and is not a component's.
pub fn numbers_shown(tracker: &Tracker, pid: u16) -> Option<PidNumbers>
    requires on_pid { pid < PID_COUNT }
    ensures { (cells : List GivenCell) → Tracks tracker.now cells
        → result ≡ (if not (packets_on pid (live_packets cells) == 0) && (users_of (live_packets cells) pid == 0) then Some (numbers_on pid cells) else None) }
{
    let numbers = tracker.counts.numbers_on(pid);
    if numbers.packets == 0 {
        return None;
    }
    if users_of(&tracker.force, pid) != 0 {
        return None;
    }
    Some(numbers)
}

// Appends the line of a PID, if it has packets and is not a component's.
fn push_pid(
    lines: &mut Vec<Line>,
    cut: u64,
    tracker: &Tracker,
    uses: &PidUses,
    scene: &Scene,
    pid: u16,
) -> Result<(), AllocError>
    requires on_pid { pid < PID_COUNT }
    ensures { OnOk result ((cells : List GivenCell) → Tracks tracker.now cells → AreUses uses.now (live_packets cells)
        → scene.now ≡ scene_of cells
        → lines.new.items ≡ lines.old.items ++ placed_at cut (pid_lines cells pid)) }
{
    let Some(numbers) = numbers_shown(tracker, pid) else {
        return Ok(());
    };
    let alloc = *lines.allocator();
    let name = uses.name(&tracker.force, pid);
    let text = pid_text(alloc, name, scene, pid, &numbers)?;
    push_line(lines, cut, text)?;
    Ok(())
}

// The text of the line of a PID.
fn pid_text(
    alloc: Global,
    name: &str,
    scene: &Scene,
    pid: u16,
    numbers: &PidNumbers,
) -> Result<LineText, AllocError>
    ensures { IfOk result (λ text. text
        ≡ pid_text pid name.now (InfoTexts.portion_text scene.now numbers.now.packets) numbers.now) }
{
    let portion = portion_text(alloc, scene, numbers.packets)?;
    let troubles = troubles_text(alloc, numbers)?;
    let text = format!(in alloc; "pid {pid} ({name}){portion}{troubles}")?;
    Ok(LineText::of(text))
}
