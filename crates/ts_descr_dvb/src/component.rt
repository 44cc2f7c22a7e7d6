//! The fields of a `component_descriptor` (ETSI EN 300 468, 6.2.8).

ghost use Rattle.std.specs.Prelude.{◌<◌, ◌^◌};

use crate::listed::list_of;
use std::alloc::{AllocError, Global};
use ts_descr::{Fields, LanguageCode, bytes_value};
use ts_fields::FieldValue;

/// The kind, the tag, the language and a text of a component (ETSI EN 300 468, 6.2.8).
#[derive(Drop)]
pub struct Component {
    /// `stream_content_ext`, 4 bits.
    pub stream_content_ext: u8,
    /// `stream_content`, 4 bits.
    pub stream_content: u8,
    /// `component_type`, 8 bits.
    pub component_type: u8,
    /// `component_tag`, 8 bits.
    pub component_tag: u8,
    /// `language_code`, three bytes.
    pub language_code: LanguageCode,
    /// `text`: a text up to the end.
    pub text: Vec<u8>,
    ghost widths: { (stream_content_ext < 2 ^ 4) × (stream_content < 2 ^ 4) },
}

impl Fields for Component {
    ghost use Rattle.ts_pages.specs.DvbPages.{component};
    ghost use Rattle.ts_descr_dvb.specs.DvbFields.{component_fields};

    ghost rows = { component.head };

    ghost fields = { component_fields };

    #[tactic(auto, unfolding(ts_fields::specs::Fitting::fits))]
    fn of(alloc: Global, values: &[FieldValue]) -> Result<Option<Component>, AllocError> {
        let [
            FieldValue::Number(stream_content_ext),
            FieldValue::Number(stream_content),
            FieldValue::Number(component_type),
            FieldValue::Number(component_tag),
            FieldValue::Bytes(language_code),
            FieldValue::Bytes(text),
        ] = values
        else {
            return Ok(None);
        };
        let Some(language_code) = LanguageCode::of(language_code) else {
            return Ok(None);
        };
        Ok(Some(Component {
            stream_content_ext: *stream_content_ext as u8,
            stream_content: *stream_content as u8,
            component_type: *component_type as u8,
            component_tag: *component_tag as u8,
            language_code,
            text: Vec::from_slice(alloc, text)?,
        }))
    }

    #[tactic(auto, unfolding(ts_fields::specs::Fitting::fits_uncounted))]
    fn values(&self, alloc: Global) -> Result<Vec<FieldValue>, AllocError> {
        let language_code = self.language_code.to_vec(alloc)?;
        let text = bytes_value(alloc, &self.text)?;
        Ok(list_of(
            alloc,
            [
                FieldValue::Number(u64::from(self.stream_content_ext)),
                FieldValue::Number(u64::from(self.stream_content)),
                FieldValue::Number(u64::from(self.component_type)),
                FieldValue::Number(u64::from(self.component_tag)),
                FieldValue::Bytes(language_code),
                text,
            ],
        )?)
    }
}
