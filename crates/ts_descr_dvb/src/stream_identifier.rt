//! The fields of a `stream_identifier_descriptor` (ETSI EN 300 468, 6.2.39).

use crate::listed::list_of;
use std::alloc::{AllocError, Global};
use ts_descr::Fields;
use ts_fields::FieldValue;

/// The tag by which other descriptors refer to a component (ETSI EN 300 468, 6.2.39).
#[derive(Drop)]
pub struct StreamIdentifier {
    /// `component_tag`, 8 bits.
    pub component_tag: u8,
}

impl Fields for StreamIdentifier {
    ghost use Rattle.ts_pages.specs.DvbPages.{stream_identifier};
    ghost use Rattle.ts_descr_dvb.specs.DvbFields.{stream_identifier_fields};

    ghost rows = { stream_identifier.head };

    ghost fields = { stream_identifier_fields };

    #[tactic(auto, unfolding(ts_fields::specs::Fitting::fits))]
    fn of(alloc: Global, values: &[FieldValue]) -> Result<Option<StreamIdentifier>, AllocError> {
        let [FieldValue::Number(component_tag)] = values else {
            return Ok(None);
        };
        Ok(Some(StreamIdentifier {
            component_tag: *component_tag as u8,
        }))
    }

    #[tactic(auto, unfolding(ts_fields::specs::Fitting::fits_uncounted))]
    fn values(&self, alloc: Global) -> Result<Vec<FieldValue>, AllocError> {
        list_of(alloc, [FieldValue::Number(u64::from(self.component_tag))])
    }
}
