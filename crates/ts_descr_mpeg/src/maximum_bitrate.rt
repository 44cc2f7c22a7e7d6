//! The fields of a `maximum_bitrate_descriptor` (ISO/IEC 13818-1, 2.6.26).

ghost use Rattle.std.specs.Prelude.{◌<◌, ◌^◌};

use std::alloc::{AllocError, Global};
use ts_descr::Fields;
use ts_fields::FieldValue;

/// The maximum bit rate of a component, in units of 50 bytes per second (ISO/IEC 13818-1, 2.6.26).
#[derive(Drop)]
pub struct MaximumBitrate {
    /// `maximum_bitrate`, 22 bits, in units of 50 bytes per second.
    pub maximum_bitrate: u32,
    ghost widths: { maximum_bitrate < 2 ^ 22 },
}

impl Fields for MaximumBitrate {
    ghost use Rattle.ts_pages.specs.MpegPages.{maximum_bitrate};
    ghost use Rattle.ts_descr_mpeg.specs.MpegFields.{maximum_bitrate_fields};

    ghost rows = { maximum_bitrate.head };

    ghost fields = { maximum_bitrate_fields };

    #[tactic(auto, unfolding(ts_fields::specs::Fitting::fits))]
    fn of(alloc: Global, values: &[FieldValue]) -> Result<Option<MaximumBitrate>, AllocError> {
        let [FieldValue::Number(maximum_bitrate)] = values else {
            return Ok(None);
        };
        Ok(Some(MaximumBitrate {
            maximum_bitrate: *maximum_bitrate as u32,
        }))
    }

    #[tactic(auto, unfolding(ts_fields::specs::Fitting::fits_uncounted))]
    fn values(&self, alloc: Global) -> Result<Vec<FieldValue>, AllocError> {
        let mut values = Vec::new(alloc);
        values.push(FieldValue::Number(u64::from(self.maximum_bitrate)))?;
        Ok(values)
    }
}
