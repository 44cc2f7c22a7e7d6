//! The fields of a `short_event_descriptor` (ETSI EN 300 468, 6.2.37).

use crate::listed::list_of;
use std::alloc::{AllocError, Global};
use ts_descr::{Fields, LanguageCode, bytes_value};
use ts_fields::FieldValue;

/// The name of an event and a short text about it (ETSI EN 300 468, 6.2.37).
#[derive(Drop)]
pub struct ShortEvent {
    /// `language_code`, three bytes.
    pub language_code: LanguageCode,
    /// `event_name`: a text, at most 255 bytes.
    pub event_name: Vec<u8>,
    /// `text`: a text, at most 255 bytes.
    pub text: Vec<u8>,
}

impl Fields for ShortEvent {
    ghost use Rattle.ts_pages.specs.DvbPages.{short_event};
    ghost use Rattle.ts_descr_dvb.specs.DvbFields.{short_event_fields};

    ghost rows = { short_event.head };

    ghost fields = { short_event_fields };

    #[tactic(auto, unfolding(ts_fields::specs::Fitting::fits))]
    fn of(alloc: Global, values: &[FieldValue]) -> Result<Option<ShortEvent>, AllocError> {
        let [
            FieldValue::Bytes(language_code),
            FieldValue::Bytes(event_name),
            FieldValue::Bytes(text),
        ] = values
        else {
            return Ok(None);
        };
        let Some(language_code) = LanguageCode::of(language_code) else {
            return Ok(None);
        };
        Ok(Some(ShortEvent {
            language_code,
            event_name: Vec::from_slice(alloc, event_name)?,
            text: Vec::from_slice(alloc, text)?,
        }))
    }

    #[tactic(auto, unfolding(ts_fields::specs::Fitting::fits_uncounted))]
    fn values(&self, alloc: Global) -> Result<Vec<FieldValue>, AllocError> {
        let language_code = self.language_code.to_vec(alloc)?;
        let event_name = bytes_value(alloc, &self.event_name)?;
        let text = bytes_value(alloc, &self.text)?;
        list_of(alloc, [FieldValue::Bytes(language_code), event_name, text])
    }
}
