//! One item of a `content_descriptor` (ETSI EN 300 468, 6.2.9).

ghost use Rattle.std.specs.Prelude.{◌<◌, ◌^◌};

use crate::listed::list_of;
use std::alloc::{AllocError, Global};
use ts_descr::Fields;
use ts_fields::FieldValue;

/// One genre of an event (ETSI EN 300 468, 6.2.9).
#[derive(Drop)]
pub struct Classification {
    /// `content_nibble_level_1`, 4 bits.
    pub content_nibble_level_1: u8,
    /// `content_nibble_level_2`, 4 bits.
    pub content_nibble_level_2: u8,
    /// `user_byte`, 8 bits.
    pub user_byte: u8,
    ghost widths: { (content_nibble_level_1 < 2 ^ 4) × (content_nibble_level_2 < 2 ^ 4) },
}

impl Fields for Classification {
    ghost use Rattle.ts_pages.specs.DvbPages.{content};
    ghost use Rattle.ts_descr.specs.Descriptors.{item_rows};
    ghost use Rattle.ts_descr_dvb.specs.DvbFields.{content_fields};

    ghost rows = { item_rows content };

    ghost fields = { content_fields };

    #[tactic(auto, unfolding(ts_fields::specs::Fitting::fits))]
    fn of(alloc: Global, values: &[FieldValue]) -> Result<Option<Classification>, AllocError> {
        let [
            FieldValue::Number(content_nibble_level_1),
            FieldValue::Number(content_nibble_level_2),
            FieldValue::Number(user_byte),
        ] = values
        else {
            return Ok(None);
        };
        Ok(Some(Classification {
            content_nibble_level_1: *content_nibble_level_1 as u8,
            content_nibble_level_2: *content_nibble_level_2 as u8,
            user_byte: *user_byte as u8,
        }))
    }

    #[tactic(auto, unfolding(ts_fields::specs::Fitting::fits_uncounted))]
    fn values(&self, alloc: Global) -> Result<Vec<FieldValue>, AllocError> {
        list_of(
            alloc,
            [
                FieldValue::Number(u64::from(self.content_nibble_level_1)),
                FieldValue::Number(u64::from(self.content_nibble_level_2)),
                FieldValue::Number(u64::from(self.user_byte)),
            ],
        )
    }
}
