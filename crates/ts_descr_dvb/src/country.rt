//! One item of a `parental_rating_descriptor` (ETSI EN 300 468, 6.2.28).

use crate::listed::list_of;
use std::alloc::{AllocError, Global};
use ts_descr::{Fields, LanguageCode};
use ts_fields::FieldValue;

/// The minimum age for an event in one country (ETSI EN 300 468, 6.2.28).
#[derive(Drop)]
pub struct Country {
    /// `country_code`, three bytes.
    pub country_code: LanguageCode,
    /// `rating`, 8 bits: 0x01 to 0x0F stand for a minimum age of `rating` + 3 years.
    pub rating: u8,
}

impl Fields for Country {
    ghost use Rattle.ts_pages.specs.DvbPages.{parental_rating};
    ghost use Rattle.ts_descr.specs.Descriptors.{item_rows};
    ghost use Rattle.ts_descr_dvb.specs.DvbFields.{parental_rating_fields};

    ghost rows = { item_rows parental_rating };

    ghost fields = { parental_rating_fields };

    #[tactic(auto, unfolding(ts_fields::specs::Fitting::fits))]
    fn of(alloc: Global, values: &[FieldValue]) -> Result<Option<Country>, AllocError> {
        let [FieldValue::Bytes(country_code), FieldValue::Number(rating)] = values else {
            return Ok(None);
        };
        let Some(country_code) = LanguageCode::of(country_code) else {
            return Ok(None);
        };
        Ok(Some(Country {
            country_code,
            rating: *rating as u8,
        }))
    }

    #[tactic(auto, unfolding(ts_fields::specs::Fitting::fits_uncounted))]
    fn values(&self, alloc: Global) -> Result<Vec<FieldValue>, AllocError> {
        let country_code = self.country_code.to_vec(alloc)?;
        list_of(
            alloc,
            [
                FieldValue::Bytes(country_code),
                FieldValue::Number(u64::from(self.rating)),
            ],
        )
    }
}
