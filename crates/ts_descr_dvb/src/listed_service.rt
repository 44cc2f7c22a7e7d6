//! One item of a `service_list_descriptor` (ETSI EN 300 468, 6.2.35).

use crate::listed::list_of;
use std::alloc::{AllocError, Global};
use ts_descr::Fields;
use ts_fields::FieldValue;

/// One service of a transport stream (ETSI EN 300 468, 6.2.35).
#[derive(Drop)]
pub struct ListedService {
    /// `service_id`, 16 bits.
    pub service_id: u16,
    /// `service_type`, 8 bits.
    pub service_type: u8,
}

impl Fields for ListedService {
    ghost use Rattle.ts_pages.specs.DvbPages.{service_list};
    ghost use Rattle.ts_descr.specs.Descriptors.{item_rows};
    ghost use Rattle.ts_descr_dvb.specs.DvbFields.{service_list_fields};

    ghost rows = { item_rows service_list };

    ghost fields = { service_list_fields };

    #[tactic(auto, unfolding(ts_fields::specs::Fitting::fits))]
    fn of(alloc: Global, values: &[FieldValue]) -> Result<Option<ListedService>, AllocError> {
        let [
            FieldValue::Number(service_id),
            FieldValue::Number(service_type),
        ] = values
        else {
            return Ok(None);
        };
        Ok(Some(ListedService {
            service_id: *service_id as u16,
            service_type: *service_type as u8,
        }))
    }

    #[tactic(auto, unfolding(ts_fields::specs::Fitting::fits_uncounted))]
    fn values(&self, alloc: Global) -> Result<Vec<FieldValue>, AllocError> {
        list_of(
            alloc,
            [
                FieldValue::Number(u64::from(self.service_id)),
                FieldValue::Number(u64::from(self.service_type)),
            ],
        )
    }
}
