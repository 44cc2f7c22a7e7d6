//! The codecs, the languages, the audio_type and the CA_system_ids of a component, as JSON.
ghost use Rattle.std.specs.Prelude.{◌≡◌, ◌++◌, IfOk, OnOk, map};
ghost use Rattle.std.specs.List.{flat_map};
ghost use Rattle.std.specs.Fmt.{decimal};
ghost use Rattle.std.specs.String.{string_bytes};
ghost use Rattle.plug_info_texts.specs.InfoJson;
ghost use Rattle.plug_info_texts.specs.Marks;
ghost use Rattle.plug_info_texts.specs.InfoJson.{after_comma, language_json, quoted};

use crate::json_parts::{array, push_item, text_or_hex};
use crate::marks::{audio_type_of, codecs_of, languages_of};
use std::alloc::{AllocError, Global};
use ts_bits::Descriptor;

/// The languages and codecs of a component, its audio_type, and these CA_system_ids.
pub fn marks_json(
    alloc: Global,
    descriptors: &[Descriptor],
    ids: &[u16],
) -> Result<String, AllocError>
    ensures { IfOk result (λ text. string_bytes text ≡ InfoJson.component_marks descriptors.now ids.now) }
{
    let languages = languages_part(alloc, descriptors)?;
    let codecs = codecs_part(alloc, descriptors)?;
    let audio = audio_json(alloc, descriptors)?;
    let cas = cas_json(alloc, ids)?;
    let text = format!(in alloc;
        ",\"languages\":{languages},\"codecs\":{codecs},\"audio_type\":{audio},\"ca\":{cas},"
    )?;
    Ok(text)
}

// The array of its languages.
fn languages_part(alloc: Global, descriptors: &[Descriptor]) -> Result<String, AllocError>
    ensures { IfOk result (λ text. string_bytes text ≡ InfoJson.array (map language_json (Marks.languages_of descriptors.now))) }
{
    let languages = languages_of(alloc, descriptors)?;
    let text = languages_json(alloc, &languages)?;
    Ok(text)
}

// The array of its codecs.
fn codecs_part(alloc: Global, descriptors: &[Descriptor]) -> Result<String, AllocError>
    ensures { IfOk result (λ text. string_bytes text ≡ InfoJson.array (map quoted (Marks.codecs_of descriptors.now))) }
{
    let codecs = codecs_of(alloc, descriptors)?;
    let text = codecs_json(alloc, &codecs)?;
    Ok(text)
}

// Its audio_type, or `null`.
fn audio_json(alloc: Global, descriptors: &[Descriptor]) -> Result<String, AllocError>
    ensures { IfOk result (λ text. string_bytes text ≡ InfoJson.number_or_null (Marks.audio_type_of descriptors.now)) }
{
    let text = match audio_type_of(descriptors) {
        Some(kind) => format!(in alloc; "{kind}")?,
        None => String::from_str(alloc, "null")?,
    };
    Ok(text)
}

/// The array of CA_system_ids.
pub fn cas_json(alloc: Global, ids: &[u16]) -> Result<String, AllocError>
    ensures { IfOk result (λ text. string_bytes text ≡ InfoJson.array (map decimal ids.now)) }
{
    let mut items = String::new(alloc);
    push_ids(alloc, &mut items, ids)?;
    let text = array(alloc, &items)?;
    Ok(text)
}

// Appends CA_system_ids to the items.
fn push_ids(alloc: Global, items: &mut String, ids: &[u16]) -> Result<(), AllocError>
    ensures { OnOk result (string_bytes items.new ≡ string_bytes items.old ++ flat_map after_comma (map decimal ids.now)) }
{
    for id in ids {
        let text = format!(in alloc; "{id}")?;
        push_item(items, &text)?;
    }
    Ok(())
}

// The array of languages.
fn languages_json(alloc: Global, languages: &[&[u8]]) -> Result<String, AllocError>
    ensures { IfOk result (λ text. string_bytes text ≡ InfoJson.array (map language_json (map (λ t. t.now) languages.now))) }
{
    let mut items = String::new(alloc);
    push_languages(alloc, &mut items, languages)?;
    let text = array(alloc, &items)?;
    Ok(text)
}

// Appends languages to the items.
fn push_languages(alloc: Global, items: &mut String, languages: &[&[u8]]) -> Result<(), AllocError>
    ensures { OnOk result (string_bytes items.new ≡ string_bytes items.old
        ++ flat_map after_comma (map language_json (map (λ t. t.now) languages.now))) }
{
    for language in languages {
        let text = text_or_hex(alloc, language)?;
        push_item(items, &text)?;
    }
    Ok(())
}

// The array of codecs.
fn codecs_json(alloc: Global, codecs: &[&str]) -> Result<String, AllocError>
    ensures { IfOk result (λ text. string_bytes text ≡ InfoJson.array (map quoted (map (λ t. t.now) codecs.now))) }
{
    let mut items = String::new(alloc);
    push_codecs(alloc, &mut items, codecs)?;
    let text = array(alloc, &items)?;
    Ok(text)
}

// Appends codecs to the items.
fn push_codecs(alloc: Global, items: &mut String, codecs: &[&str]) -> Result<(), AllocError>
    ensures { OnOk result (string_bytes items.new ≡ string_bytes items.old
        ++ flat_map after_comma (map quoted (map (λ t. t.now) codecs.now))) }
{
    for codec in codecs {
        let text = format!(in alloc; "\"{codec}\"")?;
        push_item(items, &text)?;
    }
    Ok(())
}
