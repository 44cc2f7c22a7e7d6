//! One item of a `subtitling_descriptor` (ETSI EN 300 468, 6.2.41).

use crate::listed::list_of;
use std::alloc::{AllocError, Global};
use ts_descr::{Fields, LanguageCode};
use ts_fields::FieldValue;

/// The subtitles of a component in one language (ETSI EN 300 468, 6.2.41).
#[derive(Drop)]
pub struct Subtitle {
    /// `language_code`, three bytes.
    pub language_code: LanguageCode,
    /// `subtitling_type`, 8 bits.
    pub subtitling_type: u8,
    /// `composition_page_id`, 16 bits.
    pub composition_page_id: u16,
    /// `ancillary_page_id`, 16 bits.
    pub ancillary_page_id: u16,
}

impl Fields for Subtitle {
    ghost use Rattle.ts_pages.specs.DvbPages.{subtitling};
    ghost use Rattle.ts_descr.specs.Descriptors.{item_rows};
    ghost use Rattle.ts_descr_dvb.specs.DvbFields.{subtitling_fields};

    ghost rows = { item_rows subtitling };

    ghost fields = { subtitling_fields };

    #[tactic(auto, unfolding(ts_fields::specs::Fitting::fits))]
    fn of(alloc: Global, values: &[FieldValue]) -> Result<Option<Subtitle>, AllocError> {
        let [
            FieldValue::Bytes(language_code),
            FieldValue::Number(subtitling_type),
            FieldValue::Number(composition_page_id),
            FieldValue::Number(ancillary_page_id),
        ] = values
        else {
            return Ok(None);
        };
        let Some(language_code) = LanguageCode::of(language_code) else {
            return Ok(None);
        };
        Ok(Some(Subtitle {
            language_code,
            subtitling_type: *subtitling_type as u8,
            composition_page_id: *composition_page_id as u16,
            ancillary_page_id: *ancillary_page_id as u16,
        }))
    }

    #[tactic(auto, unfolding(ts_fields::specs::Fitting::fits_uncounted))]
    fn values(&self, alloc: Global) -> Result<Vec<FieldValue>, AllocError> {
        let language_code = self.language_code.to_vec(alloc)?;
        list_of(
            alloc,
            [
                FieldValue::Bytes(language_code),
                FieldValue::Number(u64::from(self.subtitling_type)),
                FieldValue::Number(u64::from(self.composition_page_id)),
                FieldValue::Number(u64::from(self.ancillary_page_id)),
            ],
        )
    }
}
