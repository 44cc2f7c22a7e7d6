//! The edit of a CAT (ISO/IEC 13818-1, 2.4.4.6).

ghost use Rattle.std.specs.Prelude.{◌≡◌, ◌<◌, ◌∷◌, ◌++◌, [], IfOk, OnOk, Some, option_map};
ghost use Rattle.std.specs.List.{All};
ghost use Rattle.ts_packet.specs.declared.numbers.TheConstants.{PID_COUNT};
ghost use Rattle.ts_descr.specs.Descriptors.{read_typed};
ghost use Rattle.ts_descr_mpeg.specs.MpegDescrs.{mpeg_pages};
ghost use Rattle.ts_psi.specs.CatTables.{cat_held};
ghost use Rattle.plug_edit.specs.CatEdit.{added_ca, edited_cat, is_listed, with_ca, without_ca};
ghost use Rattle.plug_edit.specs.CatSettings.{IsAddedCa, IsValidCat};

use crate::cat_conf::EditCatConf;
use crate::versions::version_after;
use plug_psi::in_room;
use std::alloc::{AllocError, Global};
use ts_bits::{Descriptor, DescriptorList};
use ts_descr_mpeg::{Ca, MpegDescr};
use ts_psi::Cat;

/// A CAT after the edit of `cat`: CA descriptors are removed, others are added after the rest, and the version is set.
/// `None` if a descriptor would exceed 255 bytes. After `AllocError` nothing of the CAT is left.
pub fn edit_cat(alloc: Global, conf: &EditCatConf, cat: Cat) -> Result<Option<Cat>, AllocError>
    requires { IsValidCat conf.now }
    ensures { IfOk result (λ edited. option_map cat_held edited ≡ edited_cat conf.now (cat_held cat)) }
{
    let Cat {
        version,
        current,
        descriptors,
    } = cat;
    let kept = kept_descriptors(alloc, conf, descriptors.into_vec())?;
    let Some(descriptors) = with_added(alloc, kept, conf.add_ca.as_slice())? else {
        return Ok(None);
    };
    Ok(Some(Cat {
        version: version_after(conf.new_version, conf.increment_version, version),
        current,
        descriptors: DescriptorList::of(descriptors),
    }))
}

/// The descriptors that are not removed.
fn kept_descriptors(
    alloc: Global,
    conf: &EditCatConf,
    descriptors: Vec<Descriptor>,
) -> Result<Vec<Descriptor>, AllocError>
    ensures { IfOk result (λ kept. kept.items ≡ without_ca conf.now descriptors.items) }
{
    let mut kept = Vec::new(alloc);
    for descriptor in descriptors {
        keep(alloc, conf, &mut kept, descriptor)?;
    }
    Ok(kept)
}

/// Appends a descriptor, unless it is removed.
fn keep(
    alloc: Global,
    conf: &EditCatConf,
    kept: &mut Vec<Descriptor>,
    descriptor: Descriptor,
) -> Result<(), AllocError>
    ensures { OnOk result (kept.new.items ≡ kept.old.items ++ without_ca conf.now (descriptor ∷ [])) }
{
    if is_removed(alloc, conf, &descriptor)? {
        return Ok(());
    }
    kept.push(descriptor)?;
    Ok(())
}

/// Whether it is a CA descriptor that is removed.
fn is_removed(
    alloc: Global,
    conf: &EditCatConf,
    descriptor: &Descriptor,
) -> Result<bool, AllocError>
    ensures { IfOk result (λ removed. removed ≡ is_listed conf.now (read_typed mpeg_pages descriptor.now)) }
{
    match MpegDescr::read(alloc, descriptor)? {
        Some(MpegDescr::Ca(ca)) => Ok(
            conf.remove_casid.has(u64::from(ca.ca_system_id))
                || conf.remove_pid.has(u64::from(ca.ca_pid)),
        ),
        _ => Ok(false),
    }
}

/// The descriptors, and after them the CA descriptors that are added; `None` if one would exceed 255 bytes.
pub(crate) fn with_added(
    alloc: Global,
    descriptors: Vec<Descriptor>,
    added: &[(u64, u64)],
) -> Result<Option<Vec<Descriptor>>, AllocError>
    requires { All IsAddedCa added.now }
    ensures { IfOk result (λ all. option_map (λ v. v.items) all ≡ with_ca (Some descriptors.items) added.now) }
{
    let mut all = descriptors;
    for pair in added {
        let Some(descriptor) = ca_descriptor(alloc, pair)? else {
            return Ok(None);
        };
        all.push(descriptor)?;
    }
    Ok(Some(all))
}

/// The CA descriptor of a CA system and a PID, without private bytes.
fn ca_descriptor(alloc: Global, pair: &(u64, u64)) -> Result<Option<Descriptor>, AllocError>
    requires { IsAddedCa pair.now }
    ensures { IfOk result (λ descriptor. descriptor ≡ added_ca pair.now) }
{
    let ca = Ca {
        ca_system_id: pair.0 as u16,
        ca_pid: pair.1 as u16,
        private_data: Vec::new(alloc),
    };
    in_room(MpegDescr::Ca(ca).write(alloc))
}
