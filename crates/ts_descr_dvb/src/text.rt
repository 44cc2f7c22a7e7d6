//! Texts of descriptors, and their bytes.

ghost use Rattle.std.specs.Prelude.{◌≡◌, IfOk};
ghost use Rattle.ts_fields.specs.Texts;

use std::alloc::{AllocError, Global};
use std::marker::Model;

/// A text. Contracts see its bytes in UTF-8.
#[derive(Drop)]
pub struct TextValue {
    text: String,
}

impl Model for TextValue {
    ghost use Rattle.std.specs.Prelude.{ℕ, List, string_bytes};

    ghost Value = { List ℕ };

    ghost view = { λ t. string_bytes t.text };
}

impl TextValue {
    /// The text.
    pub fn as_str(&self) -> &str
        ensures { result.now ≡ self.now }
    {
        &self.text
    }
}

/// The bytes of a text in a descriptor. Contracts see the list.
#[derive(Drop)]
pub struct TextBytes {
    bytes: Vec<u8>,
}

impl Model for TextBytes {
    ghost use Rattle.std.specs.Prelude.{ℕ, List};

    ghost Value = { List ℕ };

    ghost view = { λ t. t.bytes.items };
}

impl TextBytes {
    /// The bytes.
    pub fn as_slice(&self) -> &[u8]
        ensures { result.now ≡ self.now }
    {
        &self.bytes
    }

    /// The bytes, for a field of a descriptor.
    pub fn into_vec(self) -> Vec<u8>
        ensures { result.items ≡ self }
    {
        self.bytes
    }
}

/// The text of bytes of a descriptor: printable ASCII, or after a byte 0x15 UTF-8 that has any other character (ETSI
/// EN 300 468, A.2). `None` for all other bytes. An `AllocError` where memory runs out.
pub fn text_of(alloc: Global, bytes: &[u8]) -> Result<Option<TextValue>, AllocError>
    ensures { IfOk result (λ o. o ≡ Texts.text_of bytes.now) }
{
    let Some(text) = ts_fields::text_of(bytes) else {
        return Ok(None);
    };
    let text = String::from_str(alloc, text)?;
    Ok(Some(TextValue { text }))
}

/// The bytes of a text in a descriptor. An `AllocError` where memory runs out.
pub fn text_bytes(alloc: Global, text: &str) -> Result<TextBytes, AllocError>
    ensures { IfOk result (λ bytes. bytes ≡ Texts.text_bytes text.now) }
{
    let bytes = ts_fields::text_bytes(alloc, text)?;
    Ok(TextBytes { bytes })
}
