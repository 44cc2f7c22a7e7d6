//! The edit of a PAT if services are kept or removed (ISO/IEC 13818-1, 2.4.4.3).

ghost use Rattle.std.specs.Prelude.{◌≡◌, ◌<◌, IfOk, filter, map};
ghost use Rattle.ts_psi.specs.PatTables.{pat_held, service_item};
ghost use Rattle.plug_service.specs.ServiceEdits;
ghost use Rattle.plug_service.specs.ServiceEdits.{entry_stays, with_items};

use crate::present::Present;
use crate::services::stays;
use crate::way::Way;
use named_services::ServiceList;
use plug_psi::{Edited, TableEdit, read_current, sections_or_same};
use std::alloc::{AllocError, Global};
use ts_psi::{Pat, PatService, PatServiceList};
use ts_section::TableRun;
use varied_edits::EditFrom;

/// Removes the services that do not stay from each current PAT that reads; carries none where it is not known yet which are
/// kept.
#[derive(Drop)]
pub(crate) struct PatPart {
    pub(crate) present: Present,
}

impl TableEdit for PatPart {
    ghost use Rattle.plug_service.specs.ServiceEdits.{pat_by};

    ghost change = { λ s run. pat_by s.present run };

    fn edit(&self, alloc: Global, run: &TableRun) -> Result<Edited, AllocError> {
        if self.present.hides() {
            return Ok(Edited::away());
        }
        edit_pat(alloc, &self.present, run)
    }
}

impl EditFrom for PatPart {
    ghost use Rattle.plug_service.specs.ServiceEdits.{pat_by};

    type Source = Present;

    ghost made_from = { λ present run. pat_by present run };

    fn is_from(&self, present: &Present) -> bool {
        self.present.is_same(present)
    }

    fn from_source(alloc: Global, present: &Present) -> Result<PatPart, AllocError> {
        let present = present.copy(alloc)?;
        Ok(PatPart { present })
    }
}

/// Removes the services that do not stay from a current PAT that reads.
fn edit_pat(alloc: Global, present: &Present, run: &TableRun) -> Result<Edited, AllocError>
    ensures { IfOk result (λ edited. edited ≡ ServiceEdits.pat_change present.now.way present.now.services run.now) }
{
    let Some(pat) = read_current::<Pat>(alloc, run)? else {
        return Ok(Edited::same());
    };
    let edited = part_of_pat(present.way, &present.services, pat);
    sections_or_same(edited.sections(alloc))
}

/// A PAT with the services that stay.
fn part_of_pat(way: Way, services: &ServiceList, pat: Pat) -> Pat
    ensures { pat_held result ≡ with_items (entry_stays way services.now) (pat_held pat) }
{
    let Pat {
        version,
        current,
        stream_id,
        network_pid,
        services: entries,
    } = pat;
    let mut entries = entries.into_vec();
    leave_out(&mut entries, way, services);
    Pat {
        version,
        current,
        stream_id,
        network_pid,
        services: PatServiceList::of(entries),
    }
}

/// Removes the entries of services that do not stay.
fn leave_out(entries: &mut Vec<PatService>, way: Way, services: &ServiceList)
    ensures { map service_item entries.new.items ≡ filter (entry_stays way services.now) (map service_item entries.old.items) }
{
    entries.retain(|entry| stays(way, services, entry.service_id));
}
