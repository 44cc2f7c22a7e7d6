//! Descriptors that list services, and what is left of them if some go or have another number (ETSI EN 300 468, 6.2.35).

ghost use Rattle.std.specs.Prelude.{◌≡◌, ◌<◌, ◌≤◌, ◌+◌, ◌++◌, drop, length, take, Some, None, IfOk, OnOk, if◌then◌else◌, true};
ghost use Rattle.std.specs.List.{flat_map, list_any};
ghost use Rattle.service_items.specs.ServiceItems;
ghost use Rattle.service_items.specs.ServiceItems.{descriptor_left, item_left, items_from, items_left, numbered, with_body};

use std::alloc::{AllocError, Global};
use ts_bits::Descriptor;

/// The tag of a service_list_descriptor, and those of the private ones of logical channel numbers.
const SERVICE_LIST: u8 = 0x41;

const LOGICAL_CHANNEL: u8 = 0x83;

const HD_LOGICAL_CHANNEL: u8 = 0x88;

/// The length of an item in a descriptor that lists services, by its tag; 0 for any other descriptor.
fn item_length(tag: u8) -> usize
    ensures tells { result ≡ ServiceItems.item_length tag }
    ensures short { result ≤ 4 }
{
    if tag == SERVICE_LIST {
        3
    } else if tag == LOGICAL_CHANNEL || tag == HD_LOGICAL_CHANNEL {
        4
    } else {
        0
    }
}

/// The length of the items of a descriptor that lists services; `None` of any other one.
fn listed_length(descriptor: &Descriptor) -> Option<usize>
    ensures { result ≡ (if ServiceItems.lists_services descriptor.now then Some (ServiceItems.item_length descriptor.now.tag) else None) }
{
    let size = item_length(descriptor.tag());
    if size > 0 && descriptor.body().len() % size == 0 {
        Some(size)
    } else {
        None
    }
}

/// Whether a number is that of one of some services.
fn is_one(services: &[u16], id: u16) -> bool
    ensures { result ≡ ServiceItems.is_one services.now id }
{
    services.iter().any(|service| id == *service)
}

/// Whether an item is of one of some services.
fn is_of_one(services: &[u16], item: &[u8]) -> bool
    ensures tells { result ≡ ServiceItems.is_of_one services.now item.now }
    ensures long { result ≡ true → 2 ≤ length item.now }
{
    let Some((high, rest)) = item.split_first() else {
        return false;
    };
    let Some((low, _)) = rest.split_first() else {
        return false;
    };
    is_one(services, u16::from(*high) * 256 + u16::from(*low))
}

/// The first bytes, so many of them or all, and the others.
fn split_item(size: usize, items: &[u8]) -> (&[u8], &[u8])
    ensures item { result.0.now ≡ take size items.now }
    ensures rest { result.1.now ≡ drop size items.now }
{
    if size < items.len() {
        items.split_at(size)
    } else {
        (items, &items[items.len()..])
    }
}

/// Whether one of so many items of this length is of one of some services.
fn has_one(services: &[u16], size: usize, count: usize, items: &[u8]) -> bool
    ensures { result ≡ list_any (ServiceItems.is_of_one services.now) (items_from count size items.now) }
{
    if count == 0 {
        return false;
    }
    let (item, rest) = split_item(size, items);
    if is_of_one(services, item) {
        return true;
    }
    has_one(services, size, count - 1, rest)
}

/// Appends what is left of so many items of this length.
fn push_items(
    services: &[u16],
    number: Option<u16>,
    size: usize,
    count: usize,
    items: &[u8],
    left: &mut Vec<u8>,
) -> Result<(), AllocError>
    ensures left { OnOk result (left.new.items ≡ left.old.items ++ flat_map (item_left services.now number) (items_from count size items.now)) }
    ensures short { OnOk result (length left.new.items ≤ length left.old.items + length items.now) }
{
    if count == 0 {
        return Ok(());
    }
    let (item, rest) = split_item(size, items);
    push_item(services, number, item, left)?;
    push_items(services, number, size, count - 1, rest, left)
}

/// Appends an item. If it is of one of some services, it has another number, or is left out if there is none.
fn push_item(
    services: &[u16],
    number: Option<u16>,
    item: &[u8],
    left: &mut Vec<u8>,
) -> Result<(), AllocError>
    ensures left { OnOk result (left.new.items ≡ left.old.items ++ item_left services.now number item.now) }
    ensures short { OnOk result (length left.new.items ≤ length left.old.items + length item.now) }
{
    if is_of_one(services, item) {
        return push_numbered(number, item, left);
    }
    left.extend_from_slice(item)
}

/// Appends an item with another number, if there is one.
fn push_numbered(number: Option<u16>, item: &[u8], left: &mut Vec<u8>) -> Result<(), AllocError>
    requires { 2 ≤ length item.now }
    ensures left { OnOk result (left.new.items ≡ left.old.items ++ numbered number item.now) }
    ensures short { OnOk result (length left.new.items ≤ length left.old.items + length item.now) }
{
    let Some(number) = number else {
        return Ok(());
    };
    left.push((number / 256) as u8)?;
    left.push((number % 256) as u8)?;
    left.extend_from_slice(&item[2..])
}

/// Whether a descriptor lists one of some services.
pub(crate) fn lists_one(services: &[u16], descriptor: &Descriptor) -> bool
    ensures { result ≡ ServiceItems.lists_one services.now descriptor.now }
{
    let Some(size) = listed_length(descriptor) else {
        return false;
    };
    let body = descriptor.body();
    has_one(services, size, body.len() / size, body)
}

/// Appends what is left of a descriptor if some services have another number, or go.
pub(crate) fn push_descriptor(
    alloc: Global,
    services: &[u16],
    number: Option<u16>,
    descriptor: Descriptor,
    left: &mut Vec<Descriptor>,
) -> Result<(), AllocError>
    ensures { OnOk result (left.new.items ≡ left.old.items ++ descriptor_left services.now number descriptor) }
{
    if !lists_one(services, &descriptor) {
        left.push(descriptor)?;
        return Ok(());
    }
    let body = body_left(alloc, services, number, &descriptor)?;
    push_listing(alloc, descriptor.tag(), body.as_slice(), left)
}

/// What is left of the items of a descriptor that lists services, one after another.
fn body_left(
    alloc: Global,
    services: &[u16],
    number: Option<u16>,
    descriptor: &Descriptor,
) -> Result<Vec<u8>, AllocError>
    requires { ServiceItems.lists_one services.now descriptor.now ≡ true }
    ensures left { IfOk result (λ left. left.items ≡ items_left services.now number (ServiceItems.item_length descriptor.now.tag) descriptor.now.body) }
    ensures short { IfOk result (λ left. length left.items ≤ 255) }
{
    let mut left = Vec::new(alloc);
    let body = descriptor.body();
    let Some(size) = listed_length(descriptor) else {
        return Ok(left);
    };
    push_items(services, number, size, body.len() / size, body, &mut left)?;
    Ok(left)
}

/// Appends a descriptor with this body, unless it is empty.
fn push_listing(
    alloc: Global,
    tag: u8,
    body: &[u8],
    left: &mut Vec<Descriptor>,
) -> Result<(), AllocError>
    requires { length body.now ≤ 255 }
    ensures { OnOk result (left.new.items ≡ left.old.items ++ with_body tag body.now) }
{
    if body.is_empty() {
        return Ok(());
    }
    left.push(Descriptor::new(alloc, tag, body)?)?;
    Ok(())
}
