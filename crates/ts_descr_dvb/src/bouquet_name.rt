//! The fields of a `bouquet_name_descriptor` (ETSI EN 300 468, 6.2.4).

use crate::listed::list_of;
use std::alloc::{AllocError, Global};
use ts_descr::{Fields, bytes_value};
use ts_fields::FieldValue;

/// The name of a bouquet (ETSI EN 300 468, 6.2.4).
#[derive(Drop)]
pub struct BouquetName {
    /// `bouquet_name`: a text up to the end.
    pub bouquet_name: Vec<u8>,
}

impl Fields for BouquetName {
    ghost use Rattle.ts_pages.specs.DvbPages.{bouquet_name};
    ghost use Rattle.ts_descr_dvb.specs.DvbFields.{bouquet_name_fields};

    ghost rows = { bouquet_name.head };

    ghost fields = { bouquet_name_fields };

    #[tactic(auto, unfolding(ts_fields::specs::Fitting::fits))]
    fn of(alloc: Global, values: &[FieldValue]) -> Result<Option<BouquetName>, AllocError> {
        let [FieldValue::Bytes(bouquet_name)] = values else {
            return Ok(None);
        };
        Ok(Some(BouquetName {
            bouquet_name: Vec::from_slice(alloc, bouquet_name)?,
        }))
    }

    #[tactic(auto, unfolding(ts_fields::specs::Fitting::fits_uncounted))]
    fn values(&self, alloc: Global) -> Result<Vec<FieldValue>, AllocError> {
        let bouquet_name = bytes_value(alloc, &self.bouquet_name)?;
        list_of(alloc, [bouquet_name])
    }
}
