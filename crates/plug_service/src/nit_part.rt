//! The edit of NITs if services are removed everywhere (ETSI EN 300 468, 5.2.1).

ghost use Rattle.std.specs.Prelude.{◌≡◌, IfOk, None, option_map};
ghost use Rattle.ts_si.specs.SiTables.{nit_held};
ghost use Rattle.service_items.specs.ServiceItems.{edited_items};

use crate::present::Present;
use named_services::ServiceList;
use plug_psi::{Edited, TableEdit, read_current, sections_or_same};
use service_items::edited_streams;
use std::alloc::{AllocError, Global};
use ts_section::TableRun;
use ts_si::Nit;
use varied_edits::EditFrom;

/// Removes the items of services from each current NIT of the actual network that reads.
#[derive(Drop)]
pub(crate) struct NitPart {
    pub(crate) present: Present,
}

impl TableEdit for NitPart {
    ghost use Rattle.plug_service.specs.ServiceEdits.{nit_by};

    ghost change = { λ s run. nit_by s.present run };

    fn edit(&self, alloc: Global, run: &TableRun) -> Result<Edited, AllocError> {
        let Some(nit) = read_current::<Nit>(alloc, run)? else {
            return Ok(Edited::same());
        };
        if !nit.actual {
            return Ok(Edited::same());
        }
        let Some(nit) = nit_without(alloc, &self.present.services, self.present.stream, nit)? else {
            return Ok(Edited::same());
        };
        sections_or_same(nit.sections(alloc))
    }
}

impl EditFrom for NitPart {
    ghost use Rattle.plug_service.specs.ServiceEdits.{nit_by};

    type Source = Present;

    ghost made_from = { λ present run. nit_by present run };

    fn is_from(&self, present: &Present) -> bool {
        self.present.is_same(present)
    }

    fn from_source(alloc: Global, present: &Present) -> Result<NitPart, AllocError> {
        let present = present.copy(alloc)?;
        Ok(NitPart { present })
    }
}

/// A NIT without the items of services; `None` if they have none there.
fn nit_without(
    alloc: Global,
    services: &ServiceList,
    stream: Option<u16>,
    nit: Nit,
) -> Result<Option<Nit>, AllocError>
    ensures { IfOk result (λ left. option_map nit_held left ≡ edited_items services.now None stream (nit_held nit)) }
{
    let Nit {
        actual,
        version,
        current,
        network_id,
        descriptors,
        streams,
    } = nit;
    let Some(streams) = edited_streams(alloc, services.as_slice(), None, stream, streams)? else {
        return Ok(None);
    };
    Ok(Some(Nit {
        actual,
        version,
        current,
        network_id,
        descriptors,
        streams,
    }))
}
