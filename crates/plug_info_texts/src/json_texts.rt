//! The parts of the object that `info --json` reports.
ghost use Rattle.std.specs.Prelude.{◌≡◌, IfOk, option_map};
ghost use Rattle.std.specs.String.{string_bytes};
ghost use Rattle.plug_info_texts.specs.InfoJson;

use crate::json_parts::{
    bytes_field, name_or_null, number_or_null, portion_json, rate_json, troubles_json,
};
use crate::name_row::{service_type_name, stream_type_name};
use crate::pid_numbers::PidNumbers;
use crate::portions::bytes_of;
use crate::scene::Scene;
use crate::shown::widened;
use crate::stream_numbers::StreamNumbers;
use named_services::{name_in, provider_in, type_in};
use std::alloc::{AllocError, Global};

/// The object of the stream.
pub fn stream_json(alloc: Global, s: &StreamNumbers) -> Result<String, AllocError>
    ensures { IfOk result (λ text. string_bytes text ≡ InfoJson.stream_json s.now) }
{
    let head = stream_head(alloc, s)?;
    let tail = stream_tail(alloc, s)?;
    let text = format!(in alloc; "{head}{tail}")?;
    Ok(text)
}

// Its first half: numbers of the stream.
fn stream_head(alloc: Global, s: &StreamNumbers) -> Result<String, AllocError>
    ensures { IfOk result (λ text. string_bytes text ≡ InfoJson.stream_head s.now) }
{
    let bytes = bytes_of(s.packets);
    let id = number_or_null(alloc, widened(s.stream_id))?;
    let rate = rate_json(alloc, s.rate, s.packets, s.extent)?;
    let text = format!(in alloc;
        "{{\"packets\":{},\"bytes\":{},\"transport_stream_id\":{},\"bitrate\":{}",
        s.packets, bytes, id, rate
    )?;
    Ok(text)
}

// Its second half: where the clock breaks off, null packets, errors and faults.
fn stream_tail(alloc: Global, s: &StreamNumbers) -> Result<String, AllocError>
    ensures { IfOk result (λ text. string_bytes text ≡ InfoJson.stream_tail s.now) }
{
    let breaks = number_or_null(alloc, s.breaks)?;
    let text = format!(in alloc;
        ",\"breaks\":{},\"nulls\":{},\"errored\":{},\"scrambled\":{},\"faults\":{}}}",
        breaks, s.nulls, s.errored, s.scrambled, s.faults
    )?;
    Ok(text)
}

/// The first half of a service's object: its description in the SDT.
pub fn service_head(alloc: Global, id: u16, body: Option<&[u8]>) -> Result<String, AllocError>
    ensures { IfOk result (λ text. string_bytes text ≡ InfoJson.service_head id (option_map (λ b. b.now) body.entry)) }
{
    let kind = type_json(alloc, type_in(body))?;
    let name = bytes_field(alloc, "name", name_in(body))?;
    let provider = bytes_field(alloc, "provider", provider_in(body))?;
    let text = format!(in alloc; "{{\"id\":{},\"type\":{},{},{}", id, kind, name, provider)?;
    Ok(text)
}

// A service type and its name, or `null`.
fn type_json(alloc: Global, kind: Option<u8>) -> Result<String, AllocError>
    ensures { IfOk result (λ text. string_bytes text ≡ InfoJson.type_json kind) }
{
    let Some(kind) = kind else {
        let missing = String::from_str(alloc, "null,\"type_name\":null")?;
        return Ok(missing);
    };
    let name = name_or_null(alloc, service_type_name(kind))?;
    let text = format!(in alloc; "{kind},\"type_name\":{name}")?;
    Ok(text)
}

/// Its second half: its PIDs, its share and its components.
pub fn service_tail(
    alloc: Global,
    scene: &Scene,
    pid: u16,
    pcr: Option<u64>,
    packets: u64,
    components: &str,
) -> Result<String, AllocError>
    ensures { IfOk result (λ text. string_bytes text
        ≡ InfoJson.service_tail pid pcr (InfoJson.portion_json scene.now packets) components.now) }
{
    let portion = portion_json(alloc, scene, packets)?;
    let pcr = number_or_null(alloc, pcr)?;
    let text = format!(in alloc;
        ",\"pmt\":{pid},\"pcr\":{pcr},{portion},\"components\":{components}}}"
    )?;
    Ok(text)
}

/// The beginning of a component's object: PID and stream type.
pub fn component_head(alloc: Global, pid: u16, kind: u8) -> Result<String, AllocError>
    ensures { IfOk result (λ text. string_bytes text ≡ InfoJson.component_head pid kind) }
{
    let name = name_or_null(alloc, stream_type_name(kind))?;
    let text = format!(in alloc;
        "{{\"pid\":{pid},\"stream_type\":{kind},\"stream_type_name\":{name}"
    )?;
    Ok(text)
}

/// Its end: its share, its scrambled and faulty packets, and how many services have it.
pub fn component_tail(
    alloc: Global,
    scene: &Scene,
    numbers: &PidNumbers,
    users: u64,
) -> Result<String, AllocError>
    ensures { IfOk result (λ text. string_bytes text ≡ InfoJson.component_tail scene.now numbers.now users) }
{
    let portion = portion_json(alloc, scene, numbers.packets)?;
    let troubles = troubles_json(alloc, numbers)?;
    let text = format!(in alloc; "{portion}{troubles},\"services\":{users}}}")?;
    Ok(text)
}
