//! One item of a `CA_identifier_descriptor` (ETSI EN 300 468, 6.2.5).

use crate::listed::list_of;
use std::alloc::{AllocError, Global};
use ts_descr::Fields;
use ts_fields::FieldValue;

/// One conditional access system (ETSI EN 300 468, 6.2.5).
#[derive(Drop)]
pub struct CaSystem {
    /// `value`, 16 bits.
    pub value: u16,
}

impl Fields for CaSystem {
    ghost use Rattle.ts_pages.specs.DvbPages.{ca_identifier};
    ghost use Rattle.ts_descr.specs.Descriptors.{item_rows};
    ghost use Rattle.ts_descr_dvb.specs.DvbFields.{ca_identifier_fields};

    ghost rows = { item_rows ca_identifier };

    ghost fields = { ca_identifier_fields };

    #[tactic(auto, unfolding(ts_fields::specs::Fitting::fits))]
    fn of(alloc: Global, values: &[FieldValue]) -> Result<Option<CaSystem>, AllocError> {
        let [FieldValue::Number(value)] = values else {
            return Ok(None);
        };
        Ok(Some(CaSystem {
            value: *value as u16,
        }))
    }

    #[tactic(auto, unfolding(ts_fields::specs::Fitting::fits_uncounted))]
    fn values(&self, alloc: Global) -> Result<Vec<FieldValue>, AllocError> {
        list_of(alloc, [FieldValue::Number(u64::from(self.value))])
    }
}
