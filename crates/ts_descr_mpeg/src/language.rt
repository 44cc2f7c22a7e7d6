//! One item of an `ISO_639_language_descriptor` (ISO/IEC 13818-1, 2.6.18).

use std::alloc::{AllocError, Global};
use ts_descr::{Fields, LanguageCode};
use ts_fields::FieldValue;

/// One language of a component (ISO/IEC 13818-1, 2.6.18).
#[derive(Drop)]
pub struct Language {
    /// `code`: the code of the language, three bytes.
    pub code: LanguageCode,
    /// `audio_type`, 8 bits.
    pub audio_type: u8,
}

impl Fields for Language {
    ghost use Rattle.ts_pages.specs.MpegPages.{language};
    ghost use Rattle.ts_descr.specs.Descriptors.{item_rows};
    ghost use Rattle.ts_descr_mpeg.specs.MpegFields.{language_fields};

    ghost rows = { item_rows language };

    ghost fields = { language_fields };

    #[tactic(auto, unfolding(ts_fields::specs::Fitting::fits))]
    fn of(alloc: Global, values: &[FieldValue]) -> Result<Option<Language>, AllocError> {
        let [FieldValue::Bytes(code), FieldValue::Number(audio_type)] = values else {
            return Ok(None);
        };
        let Some(code) = LanguageCode::of(code) else {
            return Ok(None);
        };
        Ok(Some(Language {
            code,
            audio_type: *audio_type as u8,
        }))
    }

    #[tactic(auto, unfolding(ts_fields::specs::Fitting::fits_uncounted))]
    fn values(&self, alloc: Global) -> Result<Vec<FieldValue>, AllocError> {
        let mut values = Vec::new(alloc);
        values.push(FieldValue::Bytes(self.code.to_vec(alloc)?))?;
        values.push(FieldValue::Number(u64::from(self.audio_type)))?;
        Ok(values)
    }
}
