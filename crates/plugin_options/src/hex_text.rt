//! Bytes as hexadecimal digits.
ghost use Rattle.std.specs.Prelude.{◌≡◌, ◌≤◌, IfOk, IfSome, Ok, length};
ghost use Rattle.plugin_options.specs.HexText.{bytes_of, if_as_many};

use hex::FromHexError;
use std::alloc::{AllocError, Global};
use ts_outside::FileBytes;

/// The bytes of a text of hexadecimal digits, of a least to a greatest number of bytes; none for any other text.
#[tactic(auto, unfolding(crate::specs::HexText::bytes_of))]
pub fn read_bytes(
    alloc: Global,
    text: &str,
    least: usize,
    most: usize,
) -> Result<Option<FileBytes>, AllocError>
    ensures value { IfOk result (λ bytes. bytes ≡ bytes_of least most text.now) }
    ensures range { IfOk result (λ bytes. IfSome bytes (λ row. (least ≤ length row) × (length row ≤ most))) }
{
    match hex::decode(alloc, text) {
        Ok(bytes) => Ok(as_many(bytes, least, most)),
        Err(FromHexError::OutOfMemory) => Err(AllocError),
        Err(_) => Ok(None),
    }
}

fn as_many(bytes: Vec<u8>, least: usize, most: usize) -> Option<FileBytes>
    ensures value { result ≡ if_as_many least most (Ok bytes.items) }
    ensures range { IfSome result (λ row. (least ≤ length row) × (length row ≤ most)) }
{
    if least <= bytes.len() && bytes.len() <= most {
        Some(FileBytes::of(bytes))
    } else {
        None
    }
}
