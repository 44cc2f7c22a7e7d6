//! The fields of a `private_data_specifier_descriptor` (ETSI EN 300 468, 6.2.31).

use crate::listed::list_of;
use std::alloc::{AllocError, Global};
use ts_descr::Fields;
use ts_fields::FieldValue;

/// The organisation that defines the private descriptors that follow (ETSI EN 300 468, 6.2.31).
#[derive(Drop)]
pub struct PrivateDataSpecifier {
    /// `private_data_specifier`, 32 bits.
    pub private_data_specifier: u32,
}

impl Fields for PrivateDataSpecifier {
    ghost use Rattle.ts_pages.specs.DvbPages.{private_data_specifier};
    ghost use Rattle.ts_descr_dvb.specs.DvbFields.{private_data_specifier_fields};

    ghost rows = { private_data_specifier.head };

    ghost fields = { private_data_specifier_fields };

    #[tactic(auto, unfolding(ts_fields::specs::Fitting::fits))]
    fn of(
        alloc: Global,
        values: &[FieldValue],
    ) -> Result<Option<PrivateDataSpecifier>, AllocError> {
        let [FieldValue::Number(private_data_specifier)] = values else {
            return Ok(None);
        };
        Ok(Some(PrivateDataSpecifier {
            private_data_specifier: *private_data_specifier as u32,
        }))
    }

    #[tactic(auto, unfolding(ts_fields::specs::Fitting::fits_uncounted))]
    fn values(&self, alloc: Global) -> Result<Vec<FieldValue>, AllocError> {
        list_of(
            alloc,
            [FieldValue::Number(u64::from(self.private_data_specifier))],
        )
    }
}
