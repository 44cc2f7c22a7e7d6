//! The bodies of a NIT and of a BAT, which have the same form (ETSI EN 300 468, 5.2.1 and 5.2.2).

ghost use Rattle.std.specs.Prelude.{◌≡◌, IfOk, OnOk, map, true};
ghost use Rattle.std.specs.List.{list_all};
ghost use Rattle.ts_fields.specs.Fitting.{fits};
ghost use Rattle.ts_table_rows.specs.TableFitting.{item_fits};
ghost use Rattle.ts_table_rows.specs.TableValues.{body_held};
ghost use Rattle.ts_table_pages.specs.SiPages.{network_rows, stream_page};
ghost use Rattle.ts_si.specs.SiTables.{stream_item, streams_held};

use crate::heads::holds_nothing;
use crate::streams::NitStreamList;
use std::alloc::{AllocError, Global};
use ts_bits::DescriptorList;
use ts_table_rows::TableBody;

/// The descriptors of the network or the bouquet, and the transport streams, of a body.
pub fn parts_of(
    alloc: Global,
    body: TableBody,
) -> Result<(DescriptorList, NitStreamList), AllocError>
    requires values { fits network_rows (body_held body).values ≡ true }
    requires items { list_all (item_fits stream_page) (body_held body).items ≡ true }
    ensures { IfOk result (λ parts. streams_held parts.0 parts.1 ≡ body_held body) }
{
    let TableBody {
        values,
        descriptors,
        items,
    } = body;
    // It runs nothing: the proof cites it.
    holds_nothing(&values);
    let streams = NitStreamList::read(alloc, items)?;
    Ok((descriptors, streams))
}

/// The body with these descriptors and transport streams.
pub fn stream_body(
    alloc: Global,
    descriptors: &DescriptorList,
    streams: &NitStreamList,
) -> Result<TableBody, AllocError>
    ensures held { IfOk result (λ body. body_held body ≡ streams_held descriptors.now streams.now) }
    ensures fits { OnOk result (list_all (item_fits stream_page) (map stream_item streams.now) ≡ true) }
{
    let descriptors = descriptors.copy()?;
    let items = streams.write(alloc)?;
    Ok(TableBody {
        values: Vec::new(alloc),
        descriptors,
        items,
    })
}
