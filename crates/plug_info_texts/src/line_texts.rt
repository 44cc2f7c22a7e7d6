//! The parts of the lines that `info` reports.
ghost use Rattle.std.specs.Prelude.{◌≡◌, IfOk, option_map};
ghost use Rattle.std.specs.String.{string_bytes};
ghost use Rattle.plug_info_texts.specs.InfoTexts;
ghost use Rattle.plug_info_texts.specs.InfoTexts.{shared_text, stream_text};

use crate::name_row::{service_type_name, stream_type_name};
use crate::pid_numbers::PidNumbers;
use crate::portions::{bytes_of, percent, portion_text, rate_text, troubles_text};
use crate::scene::Scene;
use crate::shown::{number_or_none, shown_or_none, widened};
use crate::stream_numbers::StreamNumbers;
use named_services::{name_in, provider_in, type_in};
use plugin_trait::LineText;
use std::alloc::{AllocError, Global};

/// The text of the line of the stream.
pub fn stream_text(alloc: Global, s: &StreamNumbers) -> Result<LineText, AllocError>
    ensures { IfOk result (λ text. text ≡ stream_text s.now) }
{
    let head = stream_head(alloc, s)?;
    let tail = stream_tail(alloc, s)?;
    let text = format!(in alloc; "{head}{tail}")?;
    Ok(LineText::of(text))
}

// Its first half: numbers of the stream.
fn stream_head(alloc: Global, s: &StreamNumbers) -> Result<String, AllocError>
    ensures { IfOk result (λ text. string_bytes text ≡ InfoTexts.stream_head s.now) }
{
    let bytes = bytes_of(s.packets);
    let id = number_or_none(alloc, widened(s.stream_id))?;
    let rate = rate_text(alloc, s.rate, s.packets, s.extent)?;
    let text = format!(in alloc;
        "stream packets {} bytes {} transport_stream_id {} bitrate {}",
        s.packets, bytes, id, rate
    )?;
    Ok(text)
}

// Its second half: where the clock breaks off, null packets, errors and faults.
fn stream_tail(alloc: Global, s: &StreamNumbers) -> Result<String, AllocError>
    ensures { IfOk result (λ text. string_bytes text ≡ InfoTexts.stream_tail s.now) }
{
    let breaks = number_or_none(alloc, s.breaks)?;
    let share = percent(alloc, s.nulls, s.packets)?;
    let text = format!(in alloc;
        " breaks {} nulls {} share {} errored {} scrambled {} faults {}",
        breaks, s.nulls, share, s.errored, s.scrambled, s.faults
    )?;
    Ok(text)
}

/// The first half of a service's line: its description in the SDT.
pub fn service_head(alloc: Global, id: u16, body: Option<&[u8]>) -> Result<String, AllocError>
    ensures { IfOk result (λ text. string_bytes text ≡ InfoTexts.service_head id (option_map (λ b. b.now) body.entry)) }
{
    let kind = type_text(alloc, type_in(body))?;
    let name = shown_or_none(alloc, name_in(body))?;
    let provider = shown_or_none(alloc, provider_in(body))?;
    let text = format!(in alloc;
        "service {} type {} name {} provider {}",
        id, kind, name, provider
    )?;
    Ok(text)
}

// A service type with its name, or `none`.
fn type_text(alloc: Global, kind: Option<u8>) -> Result<String, AllocError>
    ensures { IfOk result (λ text. string_bytes text ≡ InfoTexts.type_text kind) }
{
    let Some(kind) = kind else {
        let missing = String::from_str(alloc, "none")?;
        return Ok(missing);
    };
    let name = name_or_unknown(service_type_name(kind));
    let text = format!(in alloc; "{kind} ({name})")?;
    Ok(text)
}

/// Its second half: its PIDs and its share.
pub fn service_tail(
    alloc: Global,
    scene: &Scene,
    pid: u16,
    pcr: Option<u64>,
    packets: u64,
) -> Result<String, AllocError>
    ensures { IfOk result (λ text. string_bytes text ≡ InfoTexts.service_tail pid pcr (InfoTexts.portion_text scene.now packets)) }
{
    let portion = portion_text(alloc, scene, packets)?;
    let pcr = number_or_none(alloc, pcr)?;
    let text = format!(in alloc; " pmt {pid} pcr {pcr}{portion}")?;
    Ok(text)
}

/// The beginning of a component's line: PID, service and stream type.
pub fn component_head(alloc: Global, pid: u16, service: u16, kind: u8) -> Result<String, AllocError>
    ensures { IfOk result (λ text. string_bytes text ≡ InfoTexts.component_head pid service kind) }
{
    let name = name_or_unknown(stream_type_name(kind));
    let text = format!(in alloc; "component {pid} service {service} stream_type {kind} ({name})")?;
    Ok(text)
}

// A name, or `unknown`.
fn name_or_unknown(name: Option<&'static str>) -> &'static str
    ensures { result.now ≡ InfoTexts.name_or_unknown (option_map (λ n. n.now) name.entry) }
{
    match name {
        Some(name) => name,
        None => "unknown",
    }
}

/// Its end: its share, its scrambled and faulty packets, and how many services share it.
pub fn component_tail(
    alloc: Global,
    scene: &Scene,
    numbers: &PidNumbers,
    users: u64,
) -> Result<String, AllocError>
    ensures { IfOk result (λ text. string_bytes text ≡ InfoTexts.component_tail scene.now numbers.now users) }
{
    let portion = portion_text(alloc, scene, numbers.packets)?;
    let troubles = troubles_text(alloc, numbers)?;
    let shared = shared_text(alloc, users)?;
    let text = format!(in alloc; "{portion}{troubles}{shared}")?;
    Ok(text)
}

// How many services have a component, if it is more than one.
fn shared_text(alloc: Global, users: u64) -> Result<String, AllocError>
    ensures { IfOk result (λ text. string_bytes text ≡ shared_text users) }
{
    if 1 < users {
        let text = format!(in alloc; " shared {users}")?;
        return Ok(text);
    }
    Ok(String::new(alloc))
}
