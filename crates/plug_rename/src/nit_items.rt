//! The edit of NITs if a service has another number (ETSI EN 300 468, 5.2.1).

ghost use Rattle.std.specs.Prelude.{◌≡◌, IfOk, map, option_map};
ghost use Rattle.ts_si.specs.SiTables.{nit_held, stream_item};
ghost use Rattle.plug_rename.specs.Renaming;
ghost use Rattle.plug_rename.specs.Renaming.{lists_as};

use plug_psi::{Edited, TableEdit, read_current, sections_or_same};
use service_items::{OfStream, edited_streams};
use std::alloc::{AllocError, Global};
use ts_section::TableRun;
use ts_si::{Nit, NitStreamList};

/// Gives the items of a service in each current NIT of the actual network that reads another number.
#[derive(Clone, Copy)]
pub(crate) struct NitItems {
    pub(crate) service: u16,
    pub(crate) id: Option<u16>,
    /// The transport_stream_id of the PAT in force, if there is one.
    pub(crate) stream: Option<u16>,
}

impl TableEdit for NitItems {
    ghost use Rattle.plug_rename.specs.Renaming.{nit_change};

    ghost change = { λ s run. nit_change s.service s.id s.stream run };

    fn edit(&self, alloc: Global, run: &TableRun) -> Result<Edited, AllocError> {
        let Some(nit) = read_current::<Nit>(alloc, run)? else {
            return Ok(Edited::same());
        };
        if !nit.actual {
            return Ok(Edited::same());
        }
        let Some(nit) = nit_as(alloc, *self, nit)? else {
            return Ok(Edited::same());
        };
        sections_or_same(nit.sections(alloc))
    }
}

impl OfStream for NitItems {
    ghost at_stream = { λ to s. record s { stream = to } };

    fn stream(&self) -> Option<u16> {
        self.stream
    }

    fn with_stream(&self, _alloc: Global, stream: Option<u16>) -> Result<NitItems, AllocError> {
        Ok(NitItems {
            service: self.service,
            id: self.id,
            stream,
        })
    }
}

/// A NIT in which the service's items have another number; `None` if there is no such item, or no other number.
fn nit_as(alloc: Global, edit: NitItems, nit: Nit) -> Result<Option<Nit>, AllocError>
    ensures { IfOk result (λ edited. option_map nit_held edited ≡ lists_as edit.service edit.id edit.stream (nit_held nit)) }
{
    let Nit {
        actual,
        version,
        current,
        network_id,
        descriptors,
        streams,
    } = nit;
    let Some(streams) = streams_as(alloc, edit, streams)? else {
        return Ok(None);
    };
    Ok(Some(Nit {
        actual,
        version,
        current,
        network_id,
        descriptors,
        streams,
    }))
}

/// The transport streams in which the service's items have another number; `None` if there is no such item, or no other
/// number.
pub(crate) fn streams_as(
    alloc: Global,
    edit: NitItems,
    streams: NitStreamList,
) -> Result<Option<NitStreamList>, AllocError>
    ensures { IfOk result (λ left. option_map (map stream_item) left
        ≡ Renaming.streams_as edit.service edit.id edit.stream (map stream_item streams)) }
{
    let Some(id) = edit.id else {
        return Ok(None);
    };
    let left = edited_streams(alloc, &[edit.service], Some(id), edit.stream, streams)?;
    Ok(left)
}
