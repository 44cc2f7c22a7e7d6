//! The fields of a `CA_descriptor` (ISO/IEC 13818-1, 2.6.16).

ghost use Rattle.std.specs.Prelude.{◌<◌, ◌^◌};

use std::alloc::{AllocError, Global};
use ts_descr::{Fields, bytes_value};
use ts_fields::FieldValue;

/// The PID of the ECMs or the EMMs of a conditional access system (ISO/IEC 13818-1, 2.6.16).
#[derive(Drop)]
pub struct Ca {
    /// `CA_system_id`, 16 bits.
    pub ca_system_id: u16,
    /// `CA_PID`, 13 bits.
    pub ca_pid: u16,
    /// `private_data`: bytes up to the end.
    pub private_data: Vec<u8>,
    ghost widths: { ca_pid < 2 ^ 13 },
}

impl Fields for Ca {
    ghost use Rattle.ts_pages.specs.MpegPages.{ca};
    ghost use Rattle.ts_descr_mpeg.specs.MpegFields.{ca_fields};

    ghost rows = { ca.head };

    ghost fields = { ca_fields };

    #[tactic(auto, unfolding(ts_fields::specs::Fitting::fits))]
    fn of(alloc: Global, values: &[FieldValue]) -> Result<Option<Ca>, AllocError> {
        let [
            FieldValue::Number(ca_system_id),
            FieldValue::Number(ca_pid),
            FieldValue::Bytes(private_data),
        ] = values
        else {
            return Ok(None);
        };
        Ok(Some(Ca {
            ca_system_id: *ca_system_id as u16,
            ca_pid: *ca_pid as u16,
            private_data: Vec::from_slice(alloc, private_data)?,
        }))
    }

    #[tactic(auto, unfolding(ts_fields::specs::Fitting::fits_uncounted))]
    fn values(&self, alloc: Global) -> Result<Vec<FieldValue>, AllocError> {
        let mut values = Vec::new(alloc);
        values.push(FieldValue::Number(u64::from(self.ca_system_id)))?;
        values.push(FieldValue::Number(u64::from(self.ca_pid)))?;
        values.push(bytes_value(alloc, &self.private_data)?)?;
        Ok(values)
    }
}
