//! The edit of SDTs and BATs if a service has another number or other texts (ETSI EN 300 468, 5.2.2 and 5.2.3).

ghost use Rattle.std.specs.Prelude.{◌≡◌, IfOk, map, option_map};
ghost use Rattle.std.specs.List.{list_any};
ghost use Rattle.ts_si.specs.SiTables.{bat_held, sdt_held, service_item};
ghost use Rattle.plug_rename.specs.RenameSettings.{IsValidRename};
ghost use Rattle.plug_edit.specs.SdtEdit.{has_id};
ghost use Rattle.plug_rename.specs.Renaming;
ghost use Rattle.plug_rename.specs.Renaming.{lists_as};

use crate::items::number_after;
use crate::nit_items::{NitItems, streams_as};
use crate::rename_conf::RenameConf;
use plug_edit::edit_sdt;
use plug_psi::{Edited, TableEdit, read_current, sections_or_same};
use service_items::{OfStream, is_bat};
use std::alloc::{AllocError, Global};
use ts_section::TableRun;
use ts_si::{Bat, Sdt, SdtService, SdtServiceList};
use ts_table_rows::TableRefusal;

/// Gives a service another number and other texts in each current SDT of the actual transport stream that reads, and its items
/// in each current BAT that reads the other number.
#[derive(Drop)]
pub(crate) struct SdtNames {
    pub(crate) conf: RenameConf,
    /// The transport_stream_id of the PAT in force, if there is one.
    pub(crate) stream: Option<u16>,
    pub(crate) ghost valid: { IsValidRename conf },
}

impl TableEdit for SdtNames {
    ghost use Rattle.plug_rename.specs.Renaming.{sdt_change};

    ghost change = { λ s run. sdt_change s.conf s.stream run };

    fn edit(&self, alloc: Global, run: &TableRun) -> Result<Edited, AllocError> {
        if is_bat(run) {
            edit_bat(alloc, self.items(), run)
        } else {
            edit_names(alloc, &self.conf, run)
        }
    }
}

impl OfStream for SdtNames {
    ghost at_stream = { λ to s. record s { stream = to } };

    fn stream(&self) -> Option<u16> {
        self.stream
    }

    fn with_stream(&self, alloc: Global, stream: Option<u16>) -> Result<SdtNames, AllocError> {
        let conf = self.conf.copy(alloc)?;
        Ok(SdtNames { conf, stream })
    }
}

impl SdtNames {
    /// The edit of the service's items.
    fn items(&self) -> NitItems
        ensures { result ≡ record { service = self.now.conf.service; id = self.now.conf.id; stream = self.now.stream } }
    {
        NitItems {
            service: self.conf.service,
            id: self.conf.id,
            stream: self.stream,
        }
    }
}

/// Gives the items of a service in a current BAT that reads another number.
fn edit_bat(alloc: Global, edit: NitItems, run: &TableRun) -> Result<Edited, AllocError>
    ensures { IfOk result (λ edited. edited ≡ Renaming.bat_change edit.service edit.id edit.stream run.now) }
{
    let Some(bat) = read_current::<Bat>(alloc, run)? else {
        return Ok(Edited::same());
    };
    let Some(bat) = bat_as(alloc, edit, bat)? else {
        return Ok(Edited::same());
    };
    sections_or_same(bat.sections(alloc))
}

/// A BAT in which the service's items have another number; `None` if there is no such item, or no other number.
fn bat_as(alloc: Global, edit: NitItems, bat: Bat) -> Result<Option<Bat>, AllocError>
    ensures { IfOk result (λ edited. option_map bat_held edited ≡ lists_as edit.service edit.id edit.stream (bat_held bat)) }
{
    let Bat {
        version,
        current,
        bouquet_id,
        descriptors,
        streams,
    } = bat;
    let Some(streams) = streams_as(alloc, edit, streams)? else {
        return Ok(None);
    };
    Ok(Some(Bat {
        version,
        current,
        bouquet_id,
        descriptors,
        streams,
    }))
}

/// Gives a service another number and other texts in a current SDT of the actual transport stream that reads.
fn edit_names(alloc: Global, conf: &RenameConf, run: &TableRun) -> Result<Edited, AllocError>
    requires { IsValidRename conf.now }
    ensures { IfOk result (λ edited. edited ≡ Renaming.names_change conf.now run.now) }
{
    let Some(sdt) = read_current::<Sdt>(alloc, run)? else {
        return Ok(Edited::same());
    };
    if !sdt.actual {
        return Ok(Edited::same());
    }
    let named = with_texts(alloc, conf, sdt)?;
    let edited = renumbered(alloc, conf, named)?;
    sections_or_same(edited.sections(alloc))
}

/// An SDT with the service's texts, if it has the service and they fit.
fn with_texts(alloc: Global, conf: &RenameConf, sdt: Sdt) -> Result<Sdt, AllocError>
    requires { IsValidRename conf.now }
    ensures { IfOk result (λ named. sdt_held named ≡ Renaming.with_texts conf.now (sdt_held sdt)) }
{
    if !has_service(sdt.services.as_slice(), conf.service) {
        return Ok(sdt);
    }
    let copy = sdt.copy()?;
    let named = edit_sdt(alloc, &conf.texts, copy)?;
    let left = if_it_fits(alloc, named, sdt)?;
    Ok(left)
}

/// Another SDT in place of one, if it is there and fits its sections.
fn if_it_fits(alloc: Global, other: Option<Sdt>, sdt: Sdt) -> Result<Sdt, AllocError>
    ensures { IfOk result (λ left. sdt_held left ≡ Renaming.if_it_fits (option_map sdt_held other) (sdt_held sdt)) }
{
    let Some(other) = other else {
        return Ok(sdt);
    };
    if has_sections(alloc, &other)? {
        Ok(other)
    } else {
        Ok(sdt)
    }
}

/// Whether an SDT has sections.
fn has_sections(alloc: Global, sdt: &Sdt) -> Result<bool, AllocError>
    ensures { IfOk result (λ fits. fits ≡ Renaming.has_sections (sdt_held sdt.now)) }
{
    match sdt.sections(alloc) {
        Ok(_) => Ok(true),
        Err(TableRefusal::TooLarge { bytes: _ }) => Ok(false),
        Err(TableRefusal::TooMany) => Ok(false),
        Err(TableRefusal::NoMemory) => Err(AllocError),
    }
}

/// Whether one of the services has a number.
fn has_service(services: &[SdtService], id: u16) -> bool
    ensures { result ≡ list_any (λ service. has_id id (service_item service)) services.now }
{
    services.iter().any(|service| service.service_id == id)
}

/// An SDT in which the service has another number.
fn renumbered(alloc: Global, conf: &RenameConf, sdt: Sdt) -> Result<Sdt, AllocError>
    ensures { IfOk result (λ edited. sdt_held edited ≡ Renaming.with_number conf.now.service conf.now.id (sdt_held sdt)) }
{
    let Sdt {
        actual,
        version,
        current,
        stream_id,
        original_id,
        services,
    } = sdt;
    let services = services_as(alloc, conf, services.into_vec())?;
    Ok(Sdt {
        actual,
        version,
        current,
        stream_id,
        original_id,
        services: SdtServiceList::of(services),
    })
}

/// Services of which one has another number.
fn services_as(
    alloc: Global,
    conf: &RenameConf,
    services: Vec<SdtService>,
) -> Result<Vec<SdtService>, AllocError>
    ensures { IfOk result (λ all. map service_item all.items
        ≡ Renaming.items_as conf.now.service conf.now.id (map service_item services.items)) }
{
    let mut all = Vec::new(alloc);
    for service in services {
        all.push(service_as(conf.service, conf.id, service))?;
    }
    Ok(all)
}

/// A service under another number, if it is the one that is renamed.
fn service_as(service: u16, id: Option<u16>, held: SdtService) -> SdtService
    ensures { service_item result ≡ Renaming.item_as service id (service_item held) }
{
    let SdtService {
        service_id,
        schedule,
        present,
        running,
        free_ca,
        descriptors,
    } = held;
    SdtService {
        service_id: number_after(service, id, service_id),
        schedule,
        present,
        running,
        free_ca,
        descriptors,
    }
}
