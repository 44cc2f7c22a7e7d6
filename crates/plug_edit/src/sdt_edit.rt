//! The edit of an SDT (ETSI EN 300 468, 5.2.3).

ghost use Rattle.std.specs.Prelude.{◌≡◌, ◌<◌, IfOk, IfSome, find, length, map, option_map, unwrap_or};
ghost use Rattle.std.specs.List.{position};
ghost use Rattle.ts_si.specs.SiTables.{sdt_held, service_item};
ghost use Rattle.plug_edit.specs.SdtEdit;
ghost use Rattle.plug_edit.specs.SdtEdit.{edited_sdt, has_id, is_service, new_service, without_services};
ghost use Rattle.plug_edit.specs.SdtSettings.{IsValidSdt};

use crate::change_service::change_service;
use crate::put_first::put_first;
use crate::sdt_conf::EditSdtConf;
use crate::versions::version_after;
use plugin_options::NumberSet;
use std::alloc::{AllocError, Global};
use ts_bits::DescriptorList;
use ts_si::{Sdt, SdtService, SdtServiceList};
use ts_table_rows::Item;

/// An SDT after the edit of `sdt`: services are removed, one is changed, or added last if it is missing, and the version
/// is set. `None` if a descriptor would exceed 255 bytes. After `AllocError` nothing of the SDT is left.
pub fn edit_sdt(alloc: Global, conf: &EditSdtConf, sdt: Sdt) -> Result<Option<Sdt>, AllocError>
    requires { IsValidSdt conf.now }
    ensures { IfOk result (λ edited. option_map sdt_held edited ≡ edited_sdt conf.now (sdt_held sdt)) }
{
    let Sdt {
        actual,
        version,
        current,
        stream_id,
        original_id,
        services,
    } = sdt;
    let mut services = services.into_vec();
    remove_services(&mut services, &conf.remove_service);
    let Some(services) = with_named(alloc, conf, services)? else {
        return Ok(None);
    };
    Ok(Some(Sdt {
        actual,
        version: version_after(conf.new_version, conf.increment_version, version),
        current,
        stream_id,
        original_id,
        services: SdtServiceList::of(services),
    }))
}

/// Removes the services that are listed.
fn remove_services(services: &mut Vec<SdtService>, listed: &NumberSet)
    ensures { map service_item services.new.items
        ≡ without_services listed.now (map service_item services.old.items) }
{
    services.retain(|service| !listed.has(u64::from(service.service_id)));
}

/// The services with one changed, if one is named.
fn with_named(
    alloc: Global,
    conf: &EditSdtConf,
    services: Vec<SdtService>,
) -> Result<Option<Vec<SdtService>>, AllocError>
    requires { IsValidSdt conf.now }
    ensures { IfOk result (λ all. option_map (λ v. map service_item v.items) all
        ≡ SdtEdit.with_named conf.now conf.now.service (map service_item services.items)) }
{
    match conf.service {
        Some(id) => with_service(alloc, conf, id as u16, services),
        None => Ok(Some(services)),
    }
}

/// The services with the first of a number changed, or with a new one last if there is none.
fn with_service(
    alloc: Global,
    conf: &EditSdtConf,
    id: u16,
    services: Vec<SdtService>,
) -> Result<Option<Vec<SdtService>>, AllocError>
    requires { IsValidSdt conf.now }
    ensures { IfOk result (λ all. option_map (λ v. map service_item v.items) all
        ≡ SdtEdit.with_service conf.now id (map service_item services.items)) }
{
    let mut services = services;
    let place = place_of(&services, id);
    let service = service_at(alloc, &services, place, id)?;
    let Some(changed) = change_service(alloc, conf, service)? else {
        return Ok(None);
    };
    put_first(&mut services, place, changed)?;
    Ok(Some(services))
}

/// The service at an index, or a new one without an index.
fn service_at(
    alloc: Global,
    services: &[SdtService],
    place: Option<usize>,
    id: u16,
) -> Result<SdtService, AllocError>
    requires { IfSome place (λ i. i < length services.now) }
    ensures { place ≡ position (is_service id) services.now → IfOk result (λ service. service_item service
        ≡ unwrap_or (find (has_id id) (map service_item services.now)) (new_service id)) }
{
    match place {
        Some(place) => {
            let service = services[place].copy()?;
            Ok(service)
        }
        None => Ok(fresh_service(alloc, id)),
    }
}

/// A new service: no EIT, running_status 4, not scrambled, without descriptors.
fn fresh_service(alloc: Global, service_id: u16) -> SdtService
    ensures { service_item result ≡ new_service service_id }
{
    SdtService {
        service_id,
        schedule: false,
        present: false,
        running: 4,
        free_ca: false,
        descriptors: DescriptorList::of(Vec::new(alloc)),
    }
}

/// The index of the first service with a number.
fn place_of(services: &[SdtService], id: u16) -> Option<usize>
    ensures place { result ≡ position (is_service id) services.now }
    ensures in_range { IfSome result (λ i. i < length services.now) }
{
    services.iter().position(|service| service.service_id == id)
}
