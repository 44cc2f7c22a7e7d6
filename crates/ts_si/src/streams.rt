//! The transport streams of a NIT or a BAT (ETSI EN 300 468, 5.2.1 and 5.2.2).

ghost use Rattle.std.specs.Prelude.{◌≡◌, [], ◌∷◌, map, true};
ghost use Rattle.ts_fields.specs.Fitting.{fits};
ghost use Rattle.ts_fields.specs.Layout.{held, number};
ghost use Rattle.ts_table_pages.specs.SiPages.{stream_page};

use std::alloc::{AllocError, Global};
use ts_bits::DescriptorList;
use ts_fields::FieldValue;
use ts_table_rows::{Item, ItemList, TableItem};

/// A transport stream of a network or of a bouquet.
#[derive(Drop)]
pub struct NitStream {
    /// transport_stream_id.
    pub stream_id: u16,
    /// original_network_id.
    pub original_id: u16,
    /// The descriptors of the stream.
    pub descriptors: DescriptorList,
}

impl Item for NitStream {
    ghost use Rattle.ts_table_rows.specs.TableFitting.{item_fits};
    ghost use Rattle.ts_si.specs.SiTables.{stream_item};

    ghost as_item = { λ s. stream_item s };

    ghost fits = { item_fits stream_page };

    fn of(item: TableItem) -> NitStream {
        let (stream_id, original_id) = stream_fields(&item.values);
        NitStream {
            stream_id,
            original_id,
            descriptors: item.descriptors,
        }
    }

    #[tactic(auto, unfolding(ts_fields::specs::Fitting::fits))]
    fn to_item(&self, alloc: Global) -> Result<TableItem, AllocError> {
        let descriptors = self.descriptors.copy()?;
        let values = vec![in alloc;
            FieldValue::Number(u64::from(self.stream_id)),
            FieldValue::Number(u64::from(self.original_id)),
        ]?;
        Ok(TableItem {
            values,
            descriptors,
        })
    }

    fn copy(&self) -> Result<NitStream, AllocError> {
        let descriptors = self.descriptors.copy()?;
        Ok(NitStream {
            stream_id: self.stream_id,
            original_id: self.original_id,
            descriptors,
        })
    }
}

/// Transport streams in their order.
pub type NitStreamList = ItemList<NitStream>;

/// The transport_stream_id and the original_network_id of a transport stream.
#[tactic(auto, unfolding(ts_fields::specs::Fitting::fits))]
fn stream_fields(values: &[FieldValue]) -> (u16, u16)
    requires { fits stream_page.rows (map held values.now) ≡ true }
    ensures { map held values.now ≡ number result.0 ∷ number result.1 ∷ [] }
{
    let [
        FieldValue::Number(stream_id),
        FieldValue::Number(original_id),
    ] = values
    else {
        return (0, 0);
    };
    (*stream_id as u16, *original_id as u16)
}
