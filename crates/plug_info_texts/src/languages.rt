//! The codecs, the languages, the audio_type and the CA_system_ids of a component, as parts of its line.
ghost use Rattle.std.specs.Prelude.{◌≡◌, ◌++◌, IfOk, OnOk, map};
ghost use Rattle.std.specs.List.{flat_map};
ghost use Rattle.std.specs.String.{string_bytes};
ghost use Rattle.plug_info_texts.specs.InfoTexts;
ghost use Rattle.plug_info_texts.specs.InfoTexts.{audio_text, ca_text, codec_text, language_text};
ghost use Rattle.plug_info_texts.specs.Marks;

use crate::marks::{audio_type_of, codecs_of, languages_of};
use crate::shown::shown;
use std::alloc::{AllocError, Global};
use ts_bits::Descriptor;

/// The codecs and languages of a component, each once, its audio_type, and these CA_system_ids.
pub fn marks_text(
    alloc: Global,
    descriptors: &[Descriptor],
    ids: &[u16],
) -> Result<String, AllocError>
    ensures { IfOk result (λ text. string_bytes text ≡ InfoTexts.marks_text descriptors.now ids.now) }
{
    let codecs = codecs_text(alloc, descriptors)?;
    let languages = languages_text(alloc, descriptors)?;
    let audio = audio_text(alloc, descriptors)?;
    let cas = cas_text(alloc, ids)?;
    let text = format!(in alloc; "{codecs}{languages}{audio}{cas}")?;
    Ok(text)
}

// The codecs of a component.
fn codecs_text(alloc: Global, descriptors: &[Descriptor]) -> Result<String, AllocError>
    ensures { IfOk result (λ text. string_bytes text ≡ flat_map codec_text (Marks.codecs_of descriptors.now)) }
{
    let codecs = codecs_of(alloc, descriptors)?;
    let mut text = String::new(alloc);
    push_codecs(&mut text, &codecs)?;
    Ok(text)
}

// The languages of a component.
fn languages_text(alloc: Global, descriptors: &[Descriptor]) -> Result<String, AllocError>
    ensures { IfOk result (λ text. string_bytes text ≡ flat_map language_text (Marks.languages_of descriptors.now)) }
{
    let languages = languages_of(alloc, descriptors)?;
    let mut text = String::new(alloc);
    push_languages(alloc, &mut text, &languages)?;
    Ok(text)
}

// Its audio_type, if it has one that is not 0.
fn audio_text(alloc: Global, descriptors: &[Descriptor]) -> Result<String, AllocError>
    ensures { IfOk result (λ text. string_bytes text ≡ audio_text (Marks.audio_type_of descriptors.now)) }
{
    let text = match audio_type_of(descriptors) {
        Some(kind) => format!(in alloc; " audio_type {kind}")?,
        None => String::new(alloc),
    };
    Ok(text)
}

/// CA_system_ids.
pub fn cas_text(alloc: Global, ids: &[u16]) -> Result<String, AllocError>
    ensures { IfOk result (λ text. string_bytes text ≡ flat_map ca_text ids.now) }
{
    let mut text = String::new(alloc);
    for id in ids {
        push_ca(alloc, &mut text, *id)?;
    }
    Ok(text)
}

// Appends a CA_system_id to a text.
fn push_ca(alloc: Global, text: &mut String, id: u16) -> Result<(), AllocError>
    ensures { OnOk result (string_bytes text.new ≡ string_bytes text.old ++ ca_text id) }
{
    let more = format!(in alloc; " ca {id}")?;
    text.push_str(&more)?;
    Ok(())
}

// Appends codecs to a text.
fn push_codecs(text: &mut String, codecs: &[&str]) -> Result<(), AllocError>
    ensures { OnOk result (string_bytes text.new ≡ string_bytes text.old ++ flat_map codec_text (map (λ t. t.now) codecs.now)) }
{
    for codec in codecs {
        push_codec(text, codec)?;
    }
    Ok(())
}

// Appends a codec to a text.
fn push_codec(text: &mut String, name: &str) -> Result<(), AllocError>
    ensures { OnOk result (string_bytes text.new ≡ string_bytes text.old ++ codec_text name.now) }
{
    text.push_str(" codec ")?;
    text.push_str(name)?;
    Ok(())
}

// Appends languages to a text.
fn push_languages(alloc: Global, text: &mut String, languages: &[&[u8]]) -> Result<(), AllocError>
    ensures { OnOk result (string_bytes text.new ≡ string_bytes text.old ++ flat_map language_text (map (λ t. t.now) languages.now)) }
{
    for language in languages {
        push_language(alloc, text, language)?;
    }
    Ok(())
}

// Appends a language to a text.
fn push_language(alloc: Global, text: &mut String, language: &[u8]) -> Result<(), AllocError>
    ensures { OnOk result (string_bytes text.new ≡ string_bytes text.old ++ language_text language.now) }
{
    let language = shown(alloc, language)?;
    text.push_str(" language ")?;
    text.push_str(&language)?;
    Ok(())
}
