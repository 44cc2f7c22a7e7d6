//! What `eit` makes of the events of a section (ETSI EN 300 468, 5.2.4).

ghost use Rattle.std.specs.Prelude.{◌≡◌, ◌<◌, ◌≤◌, IfOk, filter, map, not, unwrap_or};
ghost use Rattle.std.specs.Int.{from_bool};
ghost use Rattle.std.specs.List.{list_any};
ghost use Rattle.std.specs.Option.{ForSome};
ghost use Rattle.ts_eit.specs.EitTables.{event_item};
ghost use Rattle.ts_eit.specs.declared.events.Event.{Event};
ghost use Rattle.plug_eit.specs.EitSettings.{IsValidChange};
ghost use Rattle.plug_eit.specs.EventChange as change;

use crate::eit_conf::EitConf;
use crate::event_start::shifted_start;
use crate::short_event::changed_descriptors;
use std::alloc::{AllocError, Global};
use ts_eit::Event;

/// Whether a section has an event that is asked for.
pub(crate) fn has_event(conf: &EitConf, events: &[Event]) -> bool
    ensures { result ≡ list_any (change.is_event conf.now) (map event_item events.now) }
{
    any_asked(conf.event, events)
}

/// The events of a section after the edit.
pub(crate) fn changed_events(
    alloc: Global,
    conf: &EitConf,
    events: Vec<Event>,
) -> Result<Vec<Event>, AllocError>
    requires { IsValidChange conf.now }
    ensures { IfOk result (λ all. map event_item all.items ≡ change.changed_events conf.now (map event_item events.items)) }
{
    if conf.remove {
        return Ok(without_events(conf, events));
    }
    let all = each_changed(alloc, conf, events)?;
    Ok(all)
}

// Whether one of some events is asked for.
fn any_asked(asked: Option<u64>, events: &[Event]) -> bool
    ensures { result ≡ list_any (λ (event : Event). change.is_asked asked event.event_id) events.now }
{
    events.iter().any(|event| is_asked(asked, event.event_id))
}

// Whether an event_id is the one that is asked for, if one is.
fn is_asked(asked: Option<u64>, id: u16) -> bool
    ensures { result ≡ change.is_asked asked id }
{
    match asked {
        Some(asked) => u64::from(id) == asked,
        None => true,
    }
}

// The events without those that are asked for.
fn without_events(conf: &EitConf, events: Vec<Event>) -> Vec<Event>
    ensures { map event_item result.items
        ≡ filter (λ event. not (change.is_event conf.now event)) (map event_item events.items) }
{
    let mut events = events;
    events.retain(|event| !is_asked(conf.event, event.event_id));
    events
}

// The events with those changed that are asked for.
fn each_changed(alloc: Global, conf: &EitConf, events: Vec<Event>) -> Result<Vec<Event>, AllocError>
    requires { IsValidChange conf.now }
    ensures { IfOk result (λ all. map event_item all.items
        ≡ map (change.changed_event conf.now) (map event_item events.items)) }
{
    let mut all = Vec::new(alloc);
    for event in events {
        let changed = changed_event(alloc, conf, event)?;
        all.push(changed)?;
    }
    Ok(all)
}

// An event, changed if it is asked for.
fn changed_event(alloc: Global, conf: &EitConf, event: Event) -> Result<Event, AllocError>
    requires { IsValidChange conf.now }
    ensures { IfOk result (λ changed. event_item changed ≡ change.changed_event conf.now (event_item event)) }
{
    if !is_asked(conf.event, event.event_id) {
        return Ok(event);
    }
    let Event {
        event_id,
        start,
        duration,
        running,
        free_ca,
        descriptors,
    } = event;
    let descriptors = changed_descriptors(alloc, conf, descriptors)?;
    Ok(Event {
        event_id,
        start: shifted_start(start, conf.shift),
        duration,
        running: running_after(conf.running_status, running),
        free_ca: scrambled_after(conf.free_ca_mode, free_ca),
        descriptors,
    })
}

// The running_status that is given, or else the event's.
fn running_after(given: Option<u64>, held: u8) -> u8
    requires given { ForSome given (λ status. status ≤ 7) }
    requires held { held < 8 }
    ensures running { result ≡ unwrap_or given held }
    ensures in_range { result < 8 }
{
    match given {
        Some(status) => status as u8,
        None => held,
    }
}

// The free_CA_mode that is given, or else the event's.
fn scrambled_after(given: Option<u64>, held: bool) -> bool
    requires { ForSome given (λ mode. mode ≤ 1) }
    ensures { from_bool result ≡ unwrap_or given (from_bool held) }
{
    match given {
        Some(mode) => mode == 1,
        None => held,
    }
}
