//! The codecs and the languages in the descriptors of a component, each once.
ghost use Rattle.std.specs.Prelude.{◌≡◌, ◌≤◌, ◌<◌, ◌+◌, ◌++◌, ◌==◌, not, [], IfOk, OnOk, length, take, drop, fold, map, option_map, option_to_list};
ghost use Rattle.plug_info_texts.specs.Marks;
ghost use Rattle.plug_info_texts.specs.Marks.{codec_by, extended, has_text, registered, with_new};

use crate::name_row::{codec_name, extension_name};
use crate::plain_texts::has_no_mark;
use std::alloc::{AllocError, Global};
use ts_bits::Descriptor;
use ts_fields::{are_printable, text_of};

/// The size of a language code, in bytes.
const LANGUAGE_SIZE: usize = 3;

/// The size of a format_identifier, in bytes (ISO/IEC 13818-1, 2.6.8).
const IDENTIFIER_SIZE: usize = 4;

/// The tag of a registration_descriptor (ISO/IEC 13818-1, 2.6.8).
const REGISTRATION_TAG: u8 = 0x05;

/// The tag of an ISO_639_language_descriptor (ISO/IEC 13818-1, 2.6.18).
const LANGUAGE_TAG: u8 = 0x0A;

/// The tag of an extension_descriptor (ETSI EN 300 468, 6.2.16).
const EXTENSION_TAG: u8 = 0x7F;

/// The codecs of a component, in the order of its descriptors; of equal ones the first.
pub fn codecs_of<'a>(
    alloc: Global,
    descriptors: &'a [Descriptor],
) -> Result<Vec<&'a str>, AllocError>
    ensures { IfOk result (λ codecs. map (λ t. t.now) codecs.items ≡ Marks.codecs_of descriptors.now) }
{
    let mut codecs = Vec::new(alloc);
    for descriptor in descriptors {
        push_codec(&mut codecs, codec_by(descriptor.tag(), descriptor.body()))?;
    }
    Ok(codecs)
}

// Appends a codec, if there is one and it is not there yet.
fn push_codec<'a>(codecs: &mut Vec<&'a str>, codec: Option<&'a str>) -> Result<(), AllocError>
    ensures { OnOk result (map (λ t. t.now) codecs.new.items
        ≡ fold with_new (map (λ t. t.now) codecs.old.items) (option_to_list (option_map (λ t. t.now) codec.entry))) }
{
    let Some(codec) = codec else {
        return Ok(());
    };
    if has_codec(codecs, codec) {
        return Ok(());
    }
    codecs.push(codec)?;
    Ok(())
}

// Whether a codec is there.
fn has_codec(codecs: &[&str], codec: &str) -> bool
    ensures { result ≡ has_text (map (λ t. t.now) codecs.now) codec.now }
{
    for held in codecs {
        if *held == codec {
            return true;
        }
    }
    false
}

// The codec that a descriptor with this tag and this body identifies, if it identifies one.
fn codec_by(tag: u8, body: &[u8]) -> Option<&str>
    ensures { option_map (λ t. t.now) result ≡ codec_by tag body.now }
{
    if tag == REGISTRATION_TAG {
        return registered(body);
    }
    if tag == EXTENSION_TAG {
        return extended(body);
    }
    codec_name(tag)
}

// The letters of a format_identifier, if they may be in quotation marks.
fn registered(body: &[u8]) -> Option<&str>
    ensures { option_map (λ t. t.now) result ≡ registered body.now }
{
    if body.len() < IDENTIFIER_SIZE {
        return None;
    }
    let letters = &body[..IDENTIFIER_SIZE];
    if are_printable(letters) && has_no_mark(letters) {
        text_of(letters)
    } else {
        None
    }
}

// The codec by the descriptor_tag_extension.
fn extended(body: &[u8]) -> Option<&'static str>
    ensures { option_map (λ t. t.now) result ≡ extended body.now }
{
    let (extension, _) = body.split_first()?;
    extension_name(*extension)
}

/// The languages of a component, three bytes each, in the order of its descriptors; of equal ones the first.
pub fn languages_of<'a>(
    alloc: Global,
    descriptors: &'a [Descriptor],
) -> Result<Vec<&'a [u8]>, AllocError>
    ensures { IfOk result (λ languages. map (λ t. t.now) languages.items ≡ Marks.languages_of descriptors.now) }
{
    let mut languages = Vec::new(alloc);
    for descriptor in descriptors {
        let step = language_step(descriptor.tag());
        push_languages(&mut languages, step, descriptor.body())?;
    }
    Ok(languages)
}

// The size of an entry with a language, in bytes; 256, more than any body has, if the tag has none.
fn language_step(tag: u8) -> usize
    ensures step { result ≡ Marks.language_step tag }
    ensures least { 3 ≤ result }
    ensures most { result ≤ 256 }
{
    if tag == LANGUAGE_TAG {
        return 4;
    }
    if tag == 0x56 {
        return 5;
    }
    if tag == 0x59 { 8 } else { 256 }
}

// Appends the languages of a descriptor's body that are not there yet.
fn push_languages<'a>(
    languages: &mut Vec<&'a [u8]>,
    step: usize,
    body: &'a [u8],
) -> Result<(), AllocError>
    requires least { 3 ≤ step }
    requires most { step ≤ 256 }
    ensures { OnOk result (map (λ t. t.now) languages.new.items
        ≡ fold with_new (map (λ t. t.now) languages.old.items) (Marks.languages_by step body.now)) }
{
    for place in 0..body.len() {
        push_language(languages, step, body, place)?;
    }
    Ok(())
}

// Appends the language at an offset, if an entry begins there and it is not there yet.
fn push_language<'a>(
    languages: &mut Vec<&'a [u8]>,
    step: usize,
    body: &'a [u8],
    place: usize,
) -> Result<(), AllocError>
    requires least { 3 ≤ step }
    requires most { step ≤ 256 }
    requires within { place < length body.now }
    ensures { OnOk result (map (λ t. t.now) languages.new.items
        ≡ fold with_new (map (λ t. t.now) languages.old.items) (Marks.language_at step body.now place)) }
{
    if !is_entry(step, body.len(), place) {
        return Ok(());
    }
    let language = language_in(body, place);
    if has_language(languages, language) {
        return Ok(());
    }
    languages.push(language)?;
    Ok(())
}

// Whether a language is there.
fn has_language(languages: &[&[u8]], language: &[u8]) -> bool
    ensures { result ≡ has_text (map (λ t. t.now) languages.now) language.now }
{
    for held in languages {
        if *held == language {
            return true;
        }
    }
    false
}

// Whether a whole entry begins at this offset.
fn is_entry(step: usize, size: usize, place: usize) -> bool
    requires least { 3 ≤ step }
    requires most { step ≤ 256 }
    requires within { place < size }
    requires range { size < 9223372036854775808 }
    ensures is { result ≡ Marks.is_entry step size place }
{
    place % step == 0 && place + step <= size
}

// The language at an offset: three bytes.
fn language_in(body: &[u8], place: usize) -> &[u8]
    requires { place + 3 ≤ length body.now }
    ensures { result.now ≡ take 3 (drop place body.now) }
{
    let (_, behind) = body.split_at(place);
    let (language, _) = behind.split_at(LANGUAGE_SIZE);
    language
}

/// The first audio_type of a component that is not 0 (ISO/IEC 13818-1, 2.6.18).
pub fn audio_type_of(descriptors: &[Descriptor]) -> Option<u8>
    ensures { result ≡ Marks.audio_type_of descriptors.now }
{
    let mut found = None;
    for descriptor in descriptors {
        found = found.or(audio_type_by(descriptor.tag(), descriptor.body()));
    }
    found
}

// The same of a descriptor with this tag and this body.
fn audio_type_by(tag: u8, body: &[u8]) -> Option<u8>
    ensures { result ≡ Marks.audio_type_by tag body.now }
{
    if tag == LANGUAGE_TAG {
        audio_type_in(body)
    } else {
        None
    }
}

// The same of the entries in a body, of four bytes each. It calls itself once an entry, so at most 63 times.
fn audio_type_in(body: &[u8]) -> Option<u8>
    ensures { result ≡ Marks.audio_type_in body.now }
{
    match body {
        [_, _, _, kind, entries @ ..] => {
            if *kind == 0 {
                audio_type_in(entries)
            } else {
                Some(*kind)
            }
        }
        _ => None,
    }
}
