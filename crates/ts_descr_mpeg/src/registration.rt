//! The fields of a `registration_descriptor` (ISO/IEC 13818-1, 2.6.8).

use std::alloc::{AllocError, Global};
use ts_descr::{Fields, bytes_value};
use ts_fields::FieldValue;

/// The organisation that defines the private data of a program or component (ISO/IEC 13818-1, 2.6.8).
#[derive(Drop)]
pub struct Registration {
    /// `format_identifier`, 32 bits.
    pub format_identifier: u32,
    /// `additional_identification_info`: bytes up to the end.
    pub additional_identification_info: Vec<u8>,
}

impl Fields for Registration {
    ghost use Rattle.ts_pages.specs.MpegPages.{registration};
    ghost use Rattle.ts_descr_mpeg.specs.MpegFields.{registration_fields};

    ghost rows = { registration.head };

    ghost fields = { registration_fields };

    #[tactic(auto, unfolding(ts_fields::specs::Fitting::fits))]
    fn of(alloc: Global, values: &[FieldValue]) -> Result<Option<Registration>, AllocError> {
        let [
            FieldValue::Number(format_identifier),
            FieldValue::Bytes(additional_identification_info),
        ] = values
        else {
            return Ok(None);
        };
        Ok(Some(Registration {
            format_identifier: *format_identifier as u32,
            additional_identification_info: Vec::from_slice(alloc, additional_identification_info)?,
        }))
    }

    #[tactic(auto, unfolding(ts_fields::specs::Fitting::fits_uncounted))]
    fn values(&self, alloc: Global) -> Result<Vec<FieldValue>, AllocError> {
        let mut values = Vec::new(alloc);
        values.push(FieldValue::Number(u64::from(self.format_identifier)))?;
        values.push(bytes_value(alloc, &self.additional_identification_info)?)?;
        Ok(values)
    }
}
