//! The language of a component (ISO/IEC 13818-1, 2.6.18).

ghost use Rattle.std.specs.Prelude.{◌≡◌, ◌%◌, ◌≤◌, ◌<◌, IfOk, IfSome, find, length};
ghost use Rattle.std.specs.List.{position};
ghost use Rattle.plug_edit.specs.PmtChanges;
ghost use Rattle.plug_edit.specs.PmtChanges.{body_of, language_with, spoken};

use crate::put_first::put_first;
use std::alloc::{AllocError, Global};
use ts_bits::Descriptor;

/// The tag of an ISO_639_language_descriptor.
const LANGUAGE: u8 = 0x0A;

/// The descriptors with a code in the first item of their first ISO_639_language_descriptor, or with a new one last.
pub(crate) fn with_language(
    alloc: Global,
    descriptors: Vec<Descriptor>,
    code: &[u8],
) -> Result<Vec<Descriptor>, AllocError>
    requires { length code.now ≡ 3 }
    ensures { IfOk result (λ all. all.items ≡ spoken code.now descriptors.items) }
{
    let mut all = descriptors;
    let place = place_of(&all);
    let changed = language_at(alloc, &all, place, code)?;
    put_first(&mut all, place, changed)?;
    Ok(all)
}

/// The index of the first ISO_639_language_descriptor.
fn place_of(descriptors: &[Descriptor]) -> Option<usize>
    ensures place { result ≡ position PmtChanges.is_language descriptors.now }
    ensures in_range { IfSome result (λ i. i < length descriptors.now) }
{
    descriptors
        .iter()
        .position(|descriptor| is_language(descriptor))
}

/// Whether it is an ISO_639_language_descriptor: its tag, and items of four bytes each.
fn is_language(descriptor: &Descriptor) -> bool
    ensures { result ≡ PmtChanges.is_language descriptor.now }
{
    descriptor.tag() == LANGUAGE && descriptor.body().len() % 4 == 0
}

/// The descriptor at an index with the code, or a new one without an index.
fn language_at(
    alloc: Global,
    descriptors: &[Descriptor],
    place: Option<usize>,
    code: &[u8],
) -> Result<Descriptor, AllocError>
    requires in_range { IfSome place (λ i. i < length descriptors.now) }
    requires place { place ≡ position PmtChanges.is_language descriptors.now }
    requires code { length code.now ≡ 3 }
    ensures { IfOk result (λ d. d ≡ language_with code.now (body_of (find PmtChanges.is_language descriptors.now))) }
{
    match place {
        Some(place) => {
            let changed = spoken_in(alloc, descriptors[place].body(), code)?;
            Ok(changed)
        }
        None => {
            let nothing: [u8; 0] = [];
            let fresh = spoken_in(alloc, &nothing, code)?;
            Ok(fresh)
        }
    }
}

/// An ISO_639_language_descriptor with the code before what stands behind the first one of a body.
fn spoken_in(alloc: Global, body: &[u8], code: &[u8]) -> Result<Descriptor, AllocError>
    requires items { length body.now % 4 ≡ 0 }
    requires room { length body.now ≤ 255 }
    requires code { length code.now ≡ 3 }
    ensures { IfOk result (λ d. d ≡ language_with code.now body.now) }
{
    let mut spoken = Vec::from_slice(alloc, code)?;
    if body.is_empty() {
        spoken.push(0)?;
    } else {
        spoken.extend_from_slice(&body[3..])?;
    }
    Descriptor::new(alloc, LANGUAGE, &spoken)
}
