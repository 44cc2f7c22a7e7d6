//! One item of a `teletext_descriptor` (ETSI EN 300 468, 6.2.43).

ghost use Rattle.std.specs.Prelude.{◌<◌, ◌^◌};

use crate::listed::list_of;
use std::alloc::{AllocError, Global};
use ts_descr::{Fields, LanguageCode};
use ts_fields::FieldValue;

/// One Teletext page of a component (ETSI EN 300 468, 6.2.43).
#[derive(Drop)]
pub struct TeletextPage {
    /// `language_code`, three bytes.
    pub language_code: LanguageCode,
    /// `teletext_type`, 5 bits.
    pub teletext_type: u8,
    /// `teletext_magazine_number`, 3 bits.
    pub teletext_magazine_number: u8,
    /// `teletext_page_number`, 8 bits.
    pub teletext_page_number: u8,
    ghost widths: { (teletext_type < 2 ^ 5) × (teletext_magazine_number < 2 ^ 3) },
}

impl Fields for TeletextPage {
    ghost use Rattle.ts_pages.specs.DvbPages.{teletext};
    ghost use Rattle.ts_descr.specs.Descriptors.{item_rows};
    ghost use Rattle.ts_descr_dvb.specs.DvbFields.{teletext_fields};

    ghost rows = { item_rows teletext };

    ghost fields = { teletext_fields };

    #[tactic(auto, unfolding(ts_fields::specs::Fitting::fits))]
    fn of(alloc: Global, values: &[FieldValue]) -> Result<Option<TeletextPage>, AllocError> {
        let [
            FieldValue::Bytes(language_code),
            FieldValue::Number(teletext_type),
            FieldValue::Number(teletext_magazine_number),
            FieldValue::Number(teletext_page_number),
        ] = values
        else {
            return Ok(None);
        };
        let Some(language_code) = LanguageCode::of(language_code) else {
            return Ok(None);
        };
        Ok(Some(TeletextPage {
            language_code,
            teletext_type: *teletext_type as u8,
            teletext_magazine_number: *teletext_magazine_number as u8,
            teletext_page_number: *teletext_page_number as u8,
        }))
    }

    #[tactic(auto, unfolding(ts_fields::specs::Fitting::fits_uncounted))]
    fn values(&self, alloc: Global) -> Result<Vec<FieldValue>, AllocError> {
        let language_code = self.language_code.to_vec(alloc)?;
        list_of(
            alloc,
            [
                FieldValue::Bytes(language_code),
                FieldValue::Number(u64::from(self.teletext_type)),
                FieldValue::Number(u64::from(self.teletext_magazine_number)),
                FieldValue::Number(u64::from(self.teletext_page_number)),
            ],
        )
    }
}
