//! What the edit of an SDT makes of one service (ETSI EN 300 468, 5.2.3 and 6.2.33).

ghost use Rattle.std.specs.Prelude.{◌≡◌, ◌<◌, IfOk, IfSome, Some, find, length, option_map, unwrap_or};
ghost use Rattle.std.specs.Int.{from_bool};
ghost use Rattle.std.specs.List.{position};
ghost use Rattle.std.specs.Option.{ForSome};
ghost use Rattle.ts_descr.specs.Descriptors.{read_typed};
ghost use Rattle.ts_descr_dvb.specs.DvbDescrs.{dvb_pages};
ghost use Rattle.ts_descr_dvb.specs.DvbFields.{service_fields};
ghost use Rattle.ts_si.specs.SiTables.{service_item};
ghost use Rattle.plug_edit.specs.ServiceChange;
ghost use Rattle.plug_edit.specs.SdtSettings.{IsValidSdt};

use crate::put_first::put_first;
use crate::sdt_conf::EditSdtConf;
use plug_psi::in_room;
use std::alloc::{AllocError, Global};
use ts_bits::{Descriptor, DescriptorList};
use ts_descr_dvb::{DvbDescr, Service, text_bytes};
use ts_outside::NameText;
use ts_si::SdtService;

/// A service after the edit; `None` if its service_descriptor would exceed 255 bytes.
pub fn change_service(
    alloc: Global,
    conf: &EditSdtConf,
    service: SdtService,
) -> Result<Option<SdtService>, AllocError>
    requires { IsValidSdt conf.now }
    ensures { IfOk result (λ changed. option_map service_item changed
        ≡ ServiceChange.changed_service conf.now (service_item service)) }
{
    let SdtService {
        service_id,
        schedule,
        present,
        running,
        free_ca,
        descriptors,
    } = service;
    let Some(descriptors) = changed_descriptors(alloc, conf, descriptors)? else {
        return Ok(None);
    };
    Ok(Some(SdtService {
        service_id,
        schedule,
        present,
        running: running_after(conf.running_status, running),
        free_ca: scrambled_after(conf.free_ca_mode, free_ca),
        descriptors,
    }))
}

/// The running_status that is given, or else the service's.
fn running_after(given: Option<u64>, held: u8) -> u8
    requires given { ForSome given (λ status. status < 8) }
    requires held { held < 8 }
    ensures running { result ≡ unwrap_or given held }
    ensures in_range { result < 8 }
{
    match given {
        Some(status) => status as u8,
        None => held,
    }
}

/// The free_CA_mode that is given, or else the service's.
fn scrambled_after(given: Option<u64>, held: bool) -> bool
    requires { ForSome given (λ mode. mode < 2) }
    ensures { from_bool result ≡ unwrap_or given (from_bool held) }
{
    match given {
        Some(mode) => mode == 1,
        None => held,
    }
}

/// The descriptors of the service after the edit; `None` if one would exceed 255 bytes.
fn changed_descriptors(
    alloc: Global,
    conf: &EditSdtConf,
    descriptors: DescriptorList,
) -> Result<Option<DescriptorList>, AllocError>
    requires { IsValidSdt conf.now }
    ensures { IfOk result (λ all. all ≡ ServiceChange.changed_descriptors conf.now descriptors) }
{
    if conf.name.is_none() && conf.provider.is_none() && conf.service_type.is_none() {
        return Ok(Some(descriptors));
    }
    let descriptors = with_service_descriptor(alloc, conf, descriptors.into_vec())?;
    Ok(descriptors)
}

/// The descriptors with the first service_descriptor changed, or with a new one last if there is none.
fn with_service_descriptor(
    alloc: Global,
    conf: &EditSdtConf,
    descriptors: Vec<Descriptor>,
) -> Result<Option<DescriptorList>, AllocError>
    requires { IsValidSdt conf.now }
    ensures { IfOk result (λ all. all ≡ ServiceChange.with_service_descriptor conf.now descriptors.items) }
{
    let mut all = descriptors;
    let place = place_of_service(alloc, &all)?;
    let service = service_at(alloc, &all, place)?;
    let Some(changed) = changed_descriptor(alloc, conf, service)? else {
        return Ok(None);
    };
    put_first(&mut all, place, changed)?;
    Ok(Some(DescriptorList::of(all)))
}

/// The index of the first service_descriptor.
fn place_of_service(alloc: Global, descriptors: &[Descriptor]) -> Result<Option<usize>, AllocError>
    ensures place { IfOk result (λ place. place
        ≡ position ServiceChange.is_service_descriptor descriptors.now) }
    ensures in_range { IfOk result (λ place. IfSome place (λ i. i < length descriptors.now)) }
{
    for place in 0..descriptors.len() {
        if is_service(alloc, &descriptors[place])? {
            return Ok(Some(place));
        }
    }
    Ok(None)
}

/// Whether a descriptor is a service_descriptor.
fn is_service(alloc: Global, descriptor: &Descriptor) -> Result<bool, AllocError>
    ensures { IfOk result (λ is_service. is_service
        ≡ ServiceChange.is_service_descriptor descriptor.now) }
{
    let service = read_service(alloc, descriptor)?;
    Ok(service.is_some())
}

/// What a descriptor holds as a service_descriptor; `None` if it is not one.
fn read_service(alloc: Global, descriptor: &Descriptor) -> Result<Option<Service>, AllocError>
    ensures { IfOk result (λ service. option_map service_fields service
        ≡ ServiceChange.service_values (read_typed dvb_pages descriptor.now)) }
{
    match DvbDescr::read(alloc, descriptor)? {
        Some(DvbDescr::Service(service)) => Ok(Some(service)),
        _ => Ok(None),
    }
}

/// What the service_descriptor at an index holds, or a new one without an index.
fn service_at(
    alloc: Global,
    descriptors: &[Descriptor],
    place: Option<usize>,
) -> Result<Service, AllocError>
    requires { IfSome place (λ i. i < length descriptors.now) }
    ensures { place ≡ position ServiceChange.is_service_descriptor descriptors.now → IfOk result (λ service.
        service_fields service ≡ ServiceChange.values_in (find ServiceChange.is_service_descriptor descriptors.now)) }
{
    match place {
        Some(place) => {
            let service = service_in(alloc, &descriptors[place])?;
            Ok(service)
        }
        None => Ok(new_service_descriptor(alloc)),
    }
}

/// What a descriptor holds as a service_descriptor, or a new one if it is not one.
fn service_in(alloc: Global, descriptor: &Descriptor) -> Result<Service, AllocError>
    ensures { IfOk result (λ service. service_fields service
        ≡ ServiceChange.values_in (Some descriptor.now)) }
{
    match read_service(alloc, descriptor)? {
        Some(service) => Ok(service),
        None => Ok(new_service_descriptor(alloc)),
    }
}

/// What a new service_descriptor holds: type 1 and empty texts.
fn new_service_descriptor(alloc: Global) -> Service
    ensures { service_fields result ≡ ServiceChange.new_values }
{
    Service {
        service_type: 1,
        service_provider_name: Vec::new(alloc),
        service_name: Vec::new(alloc),
    }
}

/// The service_descriptor after the edit; `None` if its body would exceed 255 bytes.
fn changed_descriptor(
    alloc: Global,
    conf: &EditSdtConf,
    service: Service,
) -> Result<Option<Descriptor>, AllocError>
    requires { IsValidSdt conf.now }
    ensures { IfOk result (λ descriptor. descriptor
        ≡ ServiceChange.changed_descriptor conf.now (service_fields service)) }
{
    let Service {
        service_type,
        service_provider_name,
        service_name,
    } = service;
    let changed = Service {
        service_type: type_after(conf.service_type, service_type),
        service_provider_name: text_or(alloc, &conf.provider, service_provider_name)?,
        service_name: text_or(alloc, &conf.name, service_name)?,
    };
    in_room(DvbDescr::Service(changed).write(alloc))
}

/// The service_type that is given, or else the descriptor's.
fn type_after(given: Option<u64>, held: u8) -> u8
    requires { ForSome given (λ service_type. service_type < 256) }
    ensures { result ≡ unwrap_or given held }
{
    match given {
        Some(service_type) => service_type as u8,
        None => held,
    }
}

/// The bytes of a text that is given, or else those that the descriptor has.
fn text_or(alloc: Global, given: &Option<NameText>, held: Vec<u8>) -> Result<Vec<u8>, AllocError>
    ensures { IfOk result (λ bytes. bytes.items ≡ ServiceChange.text_or given.now held.items) }
{
    match given {
        Some(text) => {
            let bytes = text_bytes(alloc, text.as_str())?;
            Ok(bytes.into_vec())
        }
        None => Ok(held),
    }
}
