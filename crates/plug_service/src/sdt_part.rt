//! The edit of SDTs and BATs if services are kept or removed (ETSI EN 300 468, 5.2.2 and 5.2.3).

ghost use Rattle.std.specs.Prelude.{◌≡◌, IfOk, None, filter, map, option_map};
ghost use Rattle.service_items.specs.ServiceItems.{edited_items};
ghost use Rattle.ts_si.specs.SiTables.{bat_held, sdt_held, service_item};
ghost use Rattle.plug_service.specs.ServiceEdits;
ghost use Rattle.plug_service.specs.ServiceEdits.{edited_sdt, service_stays, with_items};

use crate::kept::Kept;
use crate::present::Present;
use crate::services::stays;
use crate::way::Way;
use named_services::ServiceList;
use plug_psi::{Edited, TableEdit, read_current, sections_or_same};
use service_items::{edited_streams, is_bat};
use std::alloc::{AllocError, Global};
use ts_section::TableRun;
use ts_si::{Bat, Sdt, SdtService, SdtServiceList};
use varied_edits::EditFrom;

/// Removes the services that do not stay from each current SDT of the actual transport stream that reads. If services are
/// kept, tables that are current and have the table_id of such an SDT are carried, and where BATs are kept too, tables with
/// the table_id of one as they are, and no others; where it is not known yet which are kept, none at all. If services are
/// removed everywhere, it removes their items from each current BAT that reads.
#[derive(Drop)]
pub(crate) struct SdtPart {
    pub(crate) present: Present,
}

impl TableEdit for SdtPart {
    ghost use Rattle.plug_service.specs.ServiceEdits.{sdt_by};

    ghost change = { λ s run. sdt_by s.present run };

    fn edit(&self, alloc: Global, run: &TableRun) -> Result<Edited, AllocError> {
        if self.present.hides() {
            return Ok(Edited::away());
        }
        edit_table(alloc, &self.present, run)
    }
}

impl EditFrom for SdtPart {
    ghost use Rattle.plug_service.specs.ServiceEdits.{sdt_by};

    type Source = Present;

    ghost made_from = { λ present run. sdt_by present run };

    fn is_from(&self, present: &Present) -> bool {
        self.present.is_same(present)
    }

    fn from_source(alloc: Global, present: &Present) -> Result<SdtPart, AllocError> {
        let present = present.copy(alloc)?;
        Ok(SdtPart { present })
    }
}

/// Edits a table on PID 17, where it is known which services are meant.
fn edit_table(alloc: Global, present: &Present, run: &TableRun) -> Result<Edited, AllocError>
    ensures { IfOk result (λ edited. edited
        ≡ ServiceEdits.sdt_change present.now.way present.now.services present.now.stream run.now) }
{
    match present.way {
        Way::Keep(kept) if !is_current_sdt(run) => Ok(other_table(kept, run)),
        Way::Keep(_) => edit_sdt(alloc, present.way, &present.services, run),
        Way::Remove { everywhere } if everywhere && is_bat(run) => {
            edit_bat(alloc, &present.services, present.stream, run)
        }
        Way::Remove { .. } => edit_sdt(alloc, present.way, &present.services, run),
    }
}

/// Removes the services that do not stay from a current SDT of the actual transport stream that reads.
fn edit_sdt(
    alloc: Global,
    way: Way,
    services: &ServiceList,
    run: &TableRun,
) -> Result<Edited, AllocError>
    ensures { IfOk result (λ edited. edited ≡ edited_sdt way services.now run.now) }
{
    let Some(sdt) = read_current::<Sdt>(alloc, run)? else {
        return Ok(Edited::same());
    };
    if !sdt.actual {
        return Ok(Edited::same());
    }
    let edited = part_of_sdt(way, services, sdt);
    sections_or_same(edited.sections(alloc))
}

/// Removes the items of services from a current BAT that reads.
fn edit_bat(
    alloc: Global,
    services: &ServiceList,
    stream: Option<u16>,
    run: &TableRun,
) -> Result<Edited, AllocError>
    ensures { IfOk result (λ edited. edited ≡ ServiceEdits.bat_change services.now stream run.now) }
{
    let Some(bat) = read_current::<Bat>(alloc, run)? else {
        return Ok(Edited::same());
    };
    let Some(bat) = bat_without(alloc, services, stream, bat)? else {
        return Ok(Edited::same());
    };
    sections_or_same(bat.sections(alloc))
}

/// A BAT without the items of services; `None` if they have none there.
fn bat_without(
    alloc: Global,
    services: &ServiceList,
    stream: Option<u16>,
    bat: Bat,
) -> Result<Option<Bat>, AllocError>
    ensures { IfOk result (λ left. option_map bat_held left ≡ edited_items services.now None stream (bat_held bat)) }
{
    let Bat {
        version,
        current,
        bouquet_id,
        descriptors,
        streams,
    } = bat;
    let Some(streams) = edited_streams(alloc, services.as_slice(), None, stream, streams)? else {
        return Ok(None);
    };
    Ok(Some(Bat {
        version,
        current,
        bouquet_id,
        descriptors,
        streams,
    }))
}

/// What is made of another table if services are kept.
fn other_table(kept: Kept, run: &TableRun) -> Edited
    ensures { result ≡ ServiceEdits.other_change kept run.now }
{
    if kept.bat && is_bat(run) {
        Edited::same()
    } else {
        Edited::away()
    }
}

/// Whether a table is a current one with the table_id of the SDT of the actual transport stream.
fn is_current_sdt(run: &TableRun) -> bool
    ensures { result ≡ ServiceEdits.is_current_sdt run.now }
{
    let Some(first) = run.sections().first() else {
        return false;
    };
    let Some(head) = first.head() else {
        return false;
    };
    head.table_id == 0x42 && head.current
}

/// An SDT with the services that stay.
fn part_of_sdt(way: Way, services: &ServiceList, sdt: Sdt) -> Sdt
    ensures { sdt_held result ≡ with_items (service_stays way services.now) (sdt_held sdt) }
{
    let Sdt {
        actual,
        version,
        current,
        stream_id,
        original_id,
        services: items,
    } = sdt;
    let mut items = items.into_vec();
    leave_out(&mut items, way, services);
    Sdt {
        actual,
        version,
        current,
        stream_id,
        original_id,
        services: SdtServiceList::of(items),
    }
}

/// Removes the services that do not stay.
fn leave_out(items: &mut Vec<SdtService>, way: Way, services: &ServiceList)
    ensures { map service_item items.new.items ≡ filter (service_stays way services.now) (map service_item items.old.items) }
{
    items.retain(|item| stays(way, services, item.service_id));
}
