//! The fields of a `data_stream_alignment_descriptor` (ISO/IEC 13818-1, 2.6.10).

use std::alloc::{AllocError, Global};
use ts_descr::Fields;
use ts_fields::FieldValue;

/// The kind of unit with which the aligned PES packets of a stream begin (ISO/IEC 13818-1, 2.6.10).
#[derive(Drop)]
pub struct DataStreamAlignment {
    /// `alignment_type`, 8 bits.
    pub alignment_type: u8,
}

impl Fields for DataStreamAlignment {
    ghost use Rattle.ts_pages.specs.MpegPages.{data_stream_alignment};
    ghost use Rattle.ts_descr_mpeg.specs.MpegFields.{data_stream_alignment_fields};

    ghost rows = { data_stream_alignment.head };

    ghost fields = { data_stream_alignment_fields };

    #[tactic(auto, unfolding(ts_fields::specs::Fitting::fits))]
    fn of(alloc: Global, values: &[FieldValue]) -> Result<Option<DataStreamAlignment>, AllocError> {
        let [FieldValue::Number(alignment_type)] = values else {
            return Ok(None);
        };
        Ok(Some(DataStreamAlignment {
            alignment_type: *alignment_type as u8,
        }))
    }

    #[tactic(auto, unfolding(ts_fields::specs::Fitting::fits_uncounted))]
    fn values(&self, alloc: Global) -> Result<Vec<FieldValue>, AllocError> {
        let mut values = Vec::new(alloc);
        values.push(FieldValue::Number(u64::from(self.alignment_type)))?;
        Ok(values)
    }
}
