//! The edit of a NIT (ETSI EN 300 468, 5.2.1).

ghost use Rattle.std.specs.Prelude.{◌≡◌, ◌<◌, IfOk, IfSome, Some, length, map, option_map};
ghost use Rattle.std.specs.List.{position};
ghost use Rattle.ts_si.specs.SiTables.{nit_held, stream_item};
ghost use Rattle.plug_edit.specs.NitEdit;
ghost use Rattle.plug_edit.specs.NitEdit.{edited_nit, without_streams};
ghost use Rattle.plug_edit.specs.NitSettings.{IsValidNit};

use crate::nit_conf::EditNitConf;
use crate::numbers::number_or;
use crate::put_first::put_first;
use crate::versions::version_after;
use plug_psi::in_room;
use plugin_options::NumberSet;
use std::alloc::{AllocError, Global};
use ts_bits::{Descriptor, DescriptorList};
use ts_descr_dvb::{DvbDescr, NetworkName, text_bytes};
use ts_outside::NameText;
use ts_si::{Nit, NitStream, NitStreamList};

/// A NIT after the edit of `nit`: transport streams are removed, and network_id, the name and the version are set.
/// `None` if the name's descriptor would exceed 255 bytes. After `AllocError` nothing of the NIT is left.
pub fn edit_nit(alloc: Global, conf: &EditNitConf, nit: Nit) -> Result<Option<Nit>, AllocError>
    requires { IsValidNit conf.now }
    ensures { IfOk result (λ edited. option_map nit_held edited ≡ edited_nit conf.now (nit_held nit)) }
{
    let Nit {
        actual,
        version,
        current,
        network_id,
        descriptors,
        streams,
    } = nit;
    let Some(descriptors) = named(alloc, conf, descriptors)? else {
        return Ok(None);
    };
    let mut streams = streams.into_vec();
    remove_streams(&mut streams, &conf.remove_ts);
    Ok(Some(Nit {
        actual,
        version: version_after(conf.new_version, conf.increment_version, version),
        current,
        network_id: number_or(conf.network_id, network_id),
        descriptors,
        streams: NitStreamList::of(streams),
    }))
}

/// Removes the transport streams that are listed.
fn remove_streams(streams: &mut Vec<NitStream>, listed: &NumberSet)
    ensures { map stream_item streams.new.items
        ≡ without_streams listed.now (map stream_item streams.old.items) }
{
    streams.retain(|stream| !listed.has(u64::from(stream.stream_id)));
}

/// The descriptors with the name, if one is given; `None` if its descriptor would exceed 255 bytes.
fn named(
    alloc: Global,
    conf: &EditNitConf,
    descriptors: DescriptorList,
) -> Result<Option<DescriptorList>, AllocError>
    ensures { IfOk result (λ all. all ≡ NitEdit.named conf.now.network_name descriptors) }
{
    match &conf.network_name {
        Some(text) => with_name(alloc, text, descriptors),
        None => Ok(Some(descriptors)),
    }
}

/// The descriptors with this name; `None` if its descriptor would exceed 255 bytes.
fn with_name(
    alloc: Global,
    text: &NameText,
    descriptors: DescriptorList,
) -> Result<Option<DescriptorList>, AllocError>
    ensures { IfOk result (λ all. all ≡ NitEdit.named (Some text.now) descriptors) }
{
    let Some(name) = name_descriptor(alloc, text)? else {
        return Ok(None);
    };
    let mut all = descriptors.into_vec();
    let place = place_of_name(alloc, &all)?;
    put_first(&mut all, place, name)?;
    Ok(Some(DescriptorList::of(all)))
}

/// The network_name_descriptor of a text.
fn name_descriptor(alloc: Global, text: &NameText) -> Result<Option<Descriptor>, AllocError>
    ensures { IfOk result (λ descriptor. descriptor ≡ NitEdit.name_descriptor text.now) }
{
    let network_name = text_bytes(alloc, text.as_str())?.into_vec();
    let name = NetworkName { network_name };
    in_room(DvbDescr::NetworkName(name).write(alloc))
}

/// The index of the first network_name_descriptor.
fn place_of_name(alloc: Global, descriptors: &[Descriptor]) -> Result<Option<usize>, AllocError>
    ensures place { IfOk result (λ place. place
        ≡ position NitEdit.is_name_descriptor descriptors.now) }
    ensures in_range { IfOk result (λ place. IfSome place (λ i. i < length descriptors.now)) }
{
    for place in 0..descriptors.len() {
        if is_name(alloc, &descriptors[place])? {
            return Ok(Some(place));
        }
    }
    Ok(None)
}

/// Whether a descriptor is a network_name_descriptor.
fn is_name(alloc: Global, descriptor: &Descriptor) -> Result<bool, AllocError>
    ensures { IfOk result (λ is_name. is_name ≡ NitEdit.is_name_descriptor descriptor.now) }
{
    match DvbDescr::read(alloc, descriptor)? {
        Some(DvbDescr::NetworkName(_)) => Ok(true),
        _ => Ok(false),
    }
}
