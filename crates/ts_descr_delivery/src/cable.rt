//! The fields of a `cable_delivery_system_descriptor` (ETSI EN 300 468, 6.2.13.1).

ghost use Rattle.std.specs.Prelude.{◌<◌, ◌^◌};

use std::alloc::{AllocError, Global};
use ts_descr::Fields;
use ts_fields::FieldValue;

/// How a cable carries a transport stream (ETSI EN 300 468, 6.2.13.1).
#[derive(Drop)]
pub struct Cable {
    /// `frequency`, 8 decimal digits, in units of 100 Hz.
    pub frequency: u32,
    /// `FEC_outer`, 4 bits.
    pub fec_outer: u8,
    /// `modulation`, 8 bits.
    pub modulation: u8,
    /// `symbol_rate`, 7 decimal digits, in units of 100 symbols per second.
    pub symbol_rate: u32,
    /// `FEC_inner`, 4 bits.
    pub fec_inner: u8,
    ghost widths: { (frequency < 10 ^ 8) × (fec_outer < 2 ^ 4) × (symbol_rate < 10 ^ 7)
        × (fec_inner < 2 ^ 4) },
}

impl Fields for Cable {
    ghost use Rattle.ts_pages.specs.DeliveryPages.{cable};
    ghost use Rattle.ts_descr_delivery.specs.DeliveryFields.{cable_fields};

    ghost rows = { cable.head };

    ghost fields = { cable_fields };

    #[tactic(auto, unfolding(ts_fields::specs::Fitting::fits))]
    fn of(alloc: Global, values: &[FieldValue]) -> Result<Option<Cable>, AllocError> {
        let [
            FieldValue::Number(frequency),
            FieldValue::Number(fec_outer),
            FieldValue::Number(modulation),
            FieldValue::Number(symbol_rate),
            FieldValue::Number(fec_inner),
        ] = values
        else {
            return Ok(None);
        };
        Ok(Some(Cable {
            frequency: *frequency as u32,
            fec_outer: *fec_outer as u8,
            modulation: *modulation as u8,
            symbol_rate: *symbol_rate as u32,
            fec_inner: *fec_inner as u8,
        }))
    }

    #[tactic(auto, unfolding(ts_fields::specs::Fitting::fits_uncounted))]
    fn values(&self, alloc: Global) -> Result<Vec<FieldValue>, AllocError> {
        Ok(vec![in alloc;
            FieldValue::Number(u64::from(self.frequency)),
            FieldValue::Number(u64::from(self.fec_outer)),
            FieldValue::Number(u64::from(self.modulation)),
            FieldValue::Number(u64::from(self.symbol_rate)),
            FieldValue::Number(u64::from(self.fec_inner)),
        ]?)
    }
}
