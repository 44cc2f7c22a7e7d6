//! Which components of a PMT have sound or picture (ISO/IEC 13818-1, table 2-34; ETSI EN 300 468, table 12).
ghost use Rattle.std.specs.Prelude.{◌≡◌, ◌==◌, ◌&&◌, ◌||◌, ◌<◌, ◌++◌, IfOk, OnOk, map};
ghost use Rattle.std.specs.List.{All, flat_map, list_any};
ghost use Rattle.ts_descr.specs.Descriptors.{read_typed};
ghost use Rattle.ts_descr_mpeg.specs.MpegDescrs.{mpeg_pages};
ghost use Rattle.ts_descr_mpeg.specs.MpegFields.{language_fields};
ghost use Rattle.ts_psi.specs.PsiTables.{component_item};
ghost use Rattle.monitor_services.specs.Components as components_by;
ghost use Rattle.monitor_services.specs.Components.{sounding_pid};
ghost use Rattle.monitor_services.specs.declared.limits.TheConstants.{PID_NUMBERS};

use std::alloc::{AllocError, Global};
use ts_bits::Descriptor;
use ts_descr_mpeg::{Language, MpegDescr};
use ts_psi::Component;

/// The stream_type of private data in PES packets.
const PRIVATE_DATA: u8 = 6;

/// The tag of an ISO_639_language_descriptor (ISO/IEC 13818-1, 2.6.18).
const LANGUAGE: u8 = 10;

/// Adds the PIDs of those components that have sound or picture.
pub(crate) fn add_sounding(
    alloc: Global,
    numbers: &mut Vec<u32>,
    components: &[Component],
) -> Result<(), AllocError>
    ensures added { OnOk result (numbers.new.items ≡ numbers.old.items ++ flat_map sounding_pid (map component_item components.now)) }
    ensures below { OnOk result (All (λ n. n < PID_NUMBERS) numbers.old.items → All (λ n. n < PID_NUMBERS) numbers.new.items) }
{
    for component in components {
        add_component(alloc, numbers, component)?;
    }
    Ok(())
}

// Adds the PID of a component that has.
fn add_component(
    alloc: Global,
    numbers: &mut Vec<u32>,
    component: &Component,
) -> Result<(), AllocError>
    ensures added { OnOk result (numbers.new.items ≡ numbers.old.items ++ sounding_pid (component_item component.now)) }
    ensures below { OnOk result (All (λ n. n < PID_NUMBERS) numbers.old.items → All (λ n. n < PID_NUMBERS) numbers.new.items) }
{
    if is_sounding(alloc, component)? {
        numbers.push(u32::from(component.pid))?;
    }
    Ok(())
}

// Whether a component has sound or picture.
fn is_sounding(alloc: Global, component: &Component) -> Result<bool, AllocError>
    ensures { IfOk result (λ is. is ≡ components_by.is_sounding (component_item component.now)) }
{
    let descriptors = component.descriptors.as_slice();
    if !is_kind(component.stream_type, descriptors) {
        return Ok(false);
    }
    let may_pause = may_pause(alloc, descriptors)?;
    Ok(!may_pause)
}

// Whether the stream_type, or with private data a descriptor, says so.
fn is_kind(stream_type: u8, descriptors: &[Descriptor]) -> bool
    ensures { result ≡ (components_by.is_av_type stream_type || (stream_type == 6 && components_by.has_sound_tag descriptors.now)) }
{
    is_av_type(stream_type) || (stream_type == PRIVATE_DATA && has_sound_tag(descriptors))
}

// Whether this is a stream_type of sound or picture.
fn is_av_type(stream_type: u8) -> bool
    ensures { result ≡ components_by.is_av_type stream_type }
{
    matches!(
        stream_type,
        1 | 2 | 3 | 4 | 15 | 16 | 17 | 27 | 36 | 51 | 129 | 135
    )
}

// Whether one of the descriptors says that private data are sound: AC-3, enhanced AC-3, DTS or AAC.
fn has_sound_tag(descriptors: &[Descriptor]) -> bool
    ensures { result ≡ components_by.has_sound_tag descriptors.now }
{
    for descriptor in descriptors {
        if matches!(descriptor.tag(), 106 | 122 | 123 | 124) {
            return true;
        }
    }
    false
}

// Whether one of the descriptors says that a component may pause.
fn may_pause(alloc: Global, descriptors: &[Descriptor]) -> Result<bool, AllocError>
    ensures { IfOk result (λ may. may ≡ components_by.may_pause descriptors.now) }
{
    for descriptor in descriptors {
        let special = is_special(alloc, descriptor)?;
        if special {
            return Ok(true);
        }
    }
    Ok(false)
}

// Whether a descriptor is an ISO_639_language_descriptor with an audio_type above 0.
fn is_special(alloc: Global, descriptor: &Descriptor) -> Result<bool, AllocError>
    ensures { IfOk result (λ is. is ≡ components_by.has_special (read_typed mpeg_pages descriptor.now)) }
{
    // Most descriptors are others, and need not be read.
    if descriptor.tag() != LANGUAGE {
        return Ok(false);
    }
    match MpegDescr::read(alloc, descriptor)? {
        Some(MpegDescr::Iso639Language(languages)) => Ok(has_audio_type(&languages)),
        _ => Ok(false),
    }
}

// Whether one of the languages has an audio_type above 0.
fn has_audio_type(languages: &[Language]) -> bool
    ensures { result ≡ list_any components_by.is_special (map language_fields languages.now) }
{
    for language in languages {
        if language.audio_type > 0 {
            return true;
        }
    }
    false
}
