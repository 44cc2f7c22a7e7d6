//! What `eit` makes of a short_event_descriptor (ETSI EN 300 468, 6.2.37).

ghost use Rattle.std.specs.Prelude.{◌≡◌, ◌+◌, IfOk, length, map, option_map};
ghost use Rattle.ts_descr.specs.Descriptors.{read_typed};
ghost use Rattle.ts_descr_dvb.specs.DvbDescrs.{dvb_pages};
ghost use Rattle.ts_descr_dvb.specs.DvbFields.{short_event_fields};
ghost use Rattle.plug_psi.specs.WrittenDescriptor.{written};
ghost use Rattle.ts_pages.specs.DvbPages.{short_event};
ghost use Rattle.plug_eit.specs.ShortEventChange as change;

use crate::eit_conf::EitConf;
use crate::text_cut::cut_text;
use plug_psi::in_room;
use std::alloc::{AllocError, Global};
use ts_bits::{Descriptor, DescriptorList};
use ts_descr_dvb::{DvbDescr, ShortEvent, text_bytes};
use ts_outside::NameText;

/// The descriptors of an event after the edit.
pub(crate) fn changed_descriptors(
    alloc: Global,
    conf: &EitConf,
    descriptors: DescriptorList,
) -> Result<DescriptorList, AllocError>
    ensures { IfOk result (λ all. all ≡ change.changed_descriptors conf.now descriptors) }
{
    if conf.name.is_none() && conf.text.is_none() {
        return Ok(descriptors);
    }
    let all = with_texts(alloc, conf, descriptors.into_vec())?;
    Ok(DescriptorList::of(all))
}

// The descriptors with the texts that are given.
fn with_texts(
    alloc: Global,
    conf: &EitConf,
    descriptors: Vec<Descriptor>,
) -> Result<Vec<Descriptor>, AllocError>
    ensures { IfOk result (λ all. all.items ≡ map (change.changed_descriptor conf.now) descriptors.items) }
{
    let mut all = Vec::new(alloc);
    for descriptor in descriptors {
        let changed = changed_descriptor(alloc, conf, descriptor)?;
        all.push(changed)?;
    }
    Ok(all)
}

// A descriptor with the texts that are given; one that is no short_event_descriptor stays.
fn changed_descriptor(
    alloc: Global,
    conf: &EitConf,
    descriptor: Descriptor,
) -> Result<Descriptor, AllocError>
    ensures { IfOk result (λ changed. changed ≡ change.changed_descriptor conf.now descriptor) }
{
    let Some(event) = read_short_event(alloc, &descriptor)? else {
        return Ok(descriptor);
    };
    match written_event(alloc, conf, event)? {
        Some(changed) => Ok(changed),
        None => Ok(descriptor),
    }
}

// What a descriptor holds as a short_event_descriptor; `None` if it is not one.
fn read_short_event(
    alloc: Global,
    descriptor: &Descriptor,
) -> Result<Option<ShortEvent>, AllocError>
    ensures { IfOk result (λ event. option_map short_event_fields event
        ≡ change.short_event_values (read_typed dvb_pages descriptor.now)) }
{
    match DvbDescr::read(alloc, descriptor)? {
        Some(DvbDescr::ShortEvent(event)) => Ok(Some(event)),
        _ => Ok(None),
    }
}

// The descriptor with the texts that are given, in the room of those that it had.
fn written_event(
    alloc: Global,
    conf: &EitConf,
    event: ShortEvent,
) -> Result<Option<Descriptor>, AllocError>
    ensures { IfOk result (λ descriptor. descriptor
        ≡ written short_event (change.changed_holding conf.now (short_event_fields event))) }
{
    let ShortEvent {
        language_code,
        event_name,
        text,
    } = event;
    let room = event_name.len() + text.len();
    let mut event_name = text_or(alloc, &conf.name, event_name)?;
    let mut text = text_or(alloc, &conf.text, text)?;
    fit(room, &mut event_name, &mut text);
    let changed = ShortEvent {
        language_code,
        event_name,
        text,
    };
    in_room(DvbDescr::ShortEvent(changed).write(alloc))
}

// Cuts the text, and where that does not do the name, so that both are in the room.
fn fit(room: usize, name: &mut Vec<u8>, text: &mut Vec<u8>)
    ensures name { name.new.items ≡ (change.fitted room name.old.items text.old.items).name }
    ensures text { text.new.items ≡ (change.fitted room name.old.items text.old.items).text }
{
    if name.len() <= room {
        cut_text(text, room - name.len());
    } else {
        cut_text(name, room);
        text.clear();
    }
}

// The bytes of a text that is given, or else those that the descriptor has.
fn text_or(alloc: Global, given: &Option<NameText>, held: Vec<u8>) -> Result<Vec<u8>, AllocError>
    ensures { IfOk result (λ bytes. bytes.items ≡ change.text_or given.now held.items) }
{
    match given {
        Some(text) => {
            let bytes = text_bytes(alloc, text.as_str())?;
            Ok(bytes.into_vec())
        }
        None => Ok(held),
    }
}
