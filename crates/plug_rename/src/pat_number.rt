//! The edit of a PAT if a service has another number (ISO/IEC 13818-1, 2.4.4.3).

ghost use Rattle.std.specs.Prelude.{◌≡◌, ◌<◌, IfOk, map};
ghost use Rattle.std.specs.Option.{ForSome};
ghost use Rattle.ts_psi.specs.PatTables.{pat_held, service_item};
ghost use Rattle.plug_rename.specs.Renaming.{item_as, items_as, with_number};

use crate::items::number_after;
use plug_psi::{Edited, SeededEdit, TableEdit, read_current, sections_or_same};
use std::alloc::{AllocError, Global};
use ts_psi::{Pat, PatService, PatServiceList};
use ts_section::TableRun;

/// Gives the entries of a service another number in each current PAT that reads.
#[derive(Clone, Copy)]
pub(crate) struct PatNumber {
    pub(crate) service: u16,
    pub(crate) id: Option<u16>,
    pub(crate) ghost named: { 0 < service },
    pub(crate) ghost valid: { ForSome id (λ id. 0 < id) },
}

impl TableEdit for PatNumber {
    ghost use Rattle.plug_rename.specs.Renaming.{pat_change};

    ghost change = { λ s run. pat_change s.service s.id run };

    fn edit(&self, alloc: Global, run: &TableRun) -> Result<Edited, AllocError> {
        let Some(pat) = read_current::<Pat>(alloc, run)? else {
            return Ok(Edited::same());
        };
        let edited = pat_as(alloc, *self, pat)?;
        sections_or_same(edited.sections(alloc))
    }
}

impl SeededEdit for PatNumber {
    ghost use Rattle.plug_rename.specs.Renaming.{pat_change};

    type Seed = PatNumber;

    ghost change_on = { λ seed pid run. pat_change seed.service seed.id run };

    fn on(_alloc: Global, seed: &PatNumber, _pid: u16) -> Result<PatNumber, AllocError> {
        Ok(*seed)
    }
}

/// A PAT in which the service has another number.
fn pat_as(alloc: Global, edit: PatNumber, pat: Pat) -> Result<Pat, AllocError>
    ensures { IfOk result (λ edited. pat_held edited
        ≡ with_number edit.service edit.id (pat_held pat)) }
{
    let Pat {
        version,
        current,
        stream_id,
        network_pid,
        services,
    } = pat;
    let services = entries_as(alloc, edit, services.into_vec())?;
    Ok(Pat {
        version,
        current,
        stream_id,
        network_pid,
        services: PatServiceList::of(services),
    })
}

/// Entries in which the service has another number.
fn entries_as(
    alloc: Global,
    edit: PatNumber,
    entries: Vec<PatService>,
) -> Result<Vec<PatService>, AllocError>
    ensures { IfOk result (λ all. map service_item all.items ≡ items_as edit.service edit.id (map service_item entries.items)) }
{
    let mut all = Vec::new(alloc);
    for entry in entries {
        all.push(entry_as(edit, entry))?;
    }
    Ok(all)
}

/// An entry under another number, if it is one of the service.
fn entry_as(edit: PatNumber, entry: PatService) -> PatService
    ensures { service_item result ≡ item_as edit.service edit.id (service_item entry) }
{
    PatService {
        service_id: number_after(edit.service, edit.id, entry.service_id),
        pid: entry.pid,
    }
}
