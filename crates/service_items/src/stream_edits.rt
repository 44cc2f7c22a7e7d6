//! The transport streams of a NIT or a BAT if some services go or have another number (ETSI EN 300 468, 5.2.1 and 5.2.2).

ghost use Rattle.std.specs.Prelude.{◌≡◌, IfOk, map, option_map};
ghost use Rattle.std.specs.List.{flat_map, list_any};
ghost use Rattle.ts_si.specs.SiTables.{stream_item};
ghost use Rattle.service_items.specs.ServiceItems;
ghost use Rattle.service_items.specs.ServiceItems.{descriptor_left, stream_left, stream_lists};

use crate::listed_services::{lists_one, push_descriptor};
use std::alloc::{AllocError, Global};
use ts_bits::{Descriptor, DescriptorList};
use ts_si::{NitStream, NitStreamList};

/// The transport streams, in one of which the items of some services have another number; without one they go, and with
/// them each descriptor that has no item then. `None` if the transport stream is not known, or if the services have no items
/// there. After `AllocError` nothing of them is left.
pub fn edited_streams(
    alloc: Global,
    services: &[u16],
    number: Option<u16>,
    stream: Option<u16>,
    streams: NitStreamList,
) -> Result<Option<NitStreamList>, AllocError>
    ensures { IfOk result (λ left. option_map (map stream_item) left ≡ ServiceItems.edited_streams services.now number stream (map stream_item streams)) }
{
    let Some(stream) = stream else {
        return Ok(None);
    };
    if !one_lists(services, stream, streams.as_slice()) {
        return Ok(None);
    }
    let left = all_left(alloc, services, number, stream, streams.into_vec())?;
    Ok(Some(NitStreamList::of(left)))
}

/// Whether a descriptor of the transport stream lists one of the services, in one of its entries.
fn one_lists(services: &[u16], stream: u16, streams: &[NitStream]) -> bool
    ensures { result ≡ list_any (λ entry. stream_lists services.now stream (stream_item entry)) streams.now }
{
    streams
        .iter()
        .any(|entry| is_listing(services, stream, entry))
}

/// Whether an entry is that of the transport stream, and one of its descriptors lists one of the services.
fn is_listing(services: &[u16], stream: u16, entry: &NitStream) -> bool
    ensures { result ≡ stream_lists services.now stream (stream_item entry.now) }
{
    entry.stream_id == stream && any_lists(services, entry.descriptors.as_slice())
}

/// Whether one of some descriptors lists one of the services.
fn any_lists(services: &[u16], descriptors: &[Descriptor]) -> bool
    ensures { result ≡ list_any (ServiceItems.lists_one services.now) descriptors.now }
{
    descriptors
        .iter()
        .any(|descriptor| lists_one(services, descriptor))
}

/// What is left of all transport streams.
fn all_left(
    alloc: Global,
    services: &[u16],
    number: Option<u16>,
    stream: u16,
    streams: Vec<NitStream>,
) -> Result<Vec<NitStream>, AllocError>
    ensures { IfOk result (λ left. map stream_item left.items ≡ map (stream_left services.now number stream) (map stream_item streams.items)) }
{
    let mut left = Vec::new(alloc);
    for entry in streams {
        left.push(entry_left(alloc, services, number, stream, entry)?)?;
    }
    Ok(left)
}

/// What is left of a transport stream: if it is not the one with this number, all of it.
fn entry_left(
    alloc: Global,
    services: &[u16],
    number: Option<u16>,
    stream: u16,
    entry: NitStream,
) -> Result<NitStream, AllocError>
    ensures { IfOk result (λ left. stream_item left ≡ stream_left services.now number stream (stream_item entry)) }
{
    if entry.stream_id != stream {
        return Ok(entry);
    }
    let NitStream {
        stream_id,
        original_id,
        descriptors,
    } = entry;
    let descriptors = descriptors_left(alloc, services, number, descriptors)?;
    Ok(NitStream {
        stream_id,
        original_id,
        descriptors,
    })
}

/// What is left of descriptors.
fn descriptors_left(
    alloc: Global,
    services: &[u16],
    number: Option<u16>,
    descriptors: DescriptorList,
) -> Result<DescriptorList, AllocError>
    ensures { IfOk result (λ left. left ≡ flat_map (descriptor_left services.now number) descriptors) }
{
    let mut left = Vec::new(alloc);
    for descriptor in descriptors.into_vec() {
        push_descriptor(alloc, services, number, descriptor, &mut left)?;
    }
    Ok(DescriptorList::of(left))
}
