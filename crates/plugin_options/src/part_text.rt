//! Codes and descriptors as words.
ghost use Rattle.std.specs.Prelude.{◌≡◌, ◌≤◌, IfOk, IfSome, length};
ghost use Rattle.std.specs.List.{list_all};
ghost use Rattle.ts_bits.specs.DescriptorLoop.{descriptors_of};
ghost use Rattle.plugin_options.specs.Parts;
ghost use Rattle.plugin_options.specs.Parts.{IsPart, code_of, is_code_byte, is_read, part_of, whole_of};

use crate::hex_text::read_bytes;
use crate::limits::MOST_BYTES;
use crate::part::Part;
use std::alloc::{AllocError, Global};
use ts_bits::{LoopFault, read_loop};
use ts_outside::FileBytes;

/// The bytes of a code, or of whole descriptors; none for any other text.
pub fn read_part(alloc: Global, text: &str, part: Part) -> Result<Option<FileBytes>, AllocError>
    ensures value { IfOk result (λ bytes. bytes ≡ part_of part text.now) }
    ensures form { IfOk result (λ bytes. IfSome bytes (IsPart part)) }
{
    match part {
        Part::Code => {
            let code = read_code(alloc, text)?;
            Ok(code)
        }
        Part::Descriptors => {
            let descriptors = read_descriptors(alloc, text)?;
            Ok(descriptors)
        }
    }
}

// Three characters that may stand in a code.
#[tactic(auto, unfolding(crate::specs::Parts::code_of))]
fn read_code(alloc: Global, text: &str) -> Result<Option<FileBytes>, AllocError>
    ensures value { IfOk result (λ bytes. bytes ≡ code_of text.now) }
    ensures form { IfOk result (λ bytes. IfSome bytes (λ code. length code ≡ 3)) }
{
    let bytes = text.as_bytes();
    if !is_code(bytes) {
        return Ok(None);
    }
    Ok(Some(FileBytes::of(Vec::from_slice(alloc, bytes)?)))
}

fn is_code(bytes: &[u8]) -> bool
    ensures { result ≡ Parts.is_code bytes.now }
{
    bytes.len() == 3 && are_code_bytes(bytes)
}

fn are_code_bytes(bytes: &[u8]) -> bool
    ensures { result ≡ list_all Parts.is_code_byte bytes.now }
{
    bytes.iter().all(|byte| is_code_byte(*byte))
}

fn is_code_byte(byte: u8) -> bool
    ensures { result ≡ Parts.is_code_byte byte }
{
    0x20 <= byte && byte <= 0x7E && !(byte == b',')
}

// One or more whole descriptors.
#[tactic(auto, unfolding(crate::specs::Parts::whole_of))]
fn read_descriptors(alloc: Global, text: &str) -> Result<Option<FileBytes>, AllocError>
    ensures value { IfOk result (λ bytes. bytes ≡ whole_of text.now) }
    ensures form { IfOk result (λ bytes. IfSome bytes (λ row. 1 ≤ length row)) }
{
    let Some(bytes) = read_bytes(alloc, text, 1, MOST_BYTES)? else {
        return Ok(None);
    };
    if !is_whole(alloc, bytes.as_slice())? {
        return Ok(None);
    }
    Ok(Some(bytes))
}

// Whether descriptors fill the bytes.
fn is_whole(alloc: Global, bytes: &[u8]) -> Result<bool, AllocError>
    ensures { IfOk result (λ whole. whole ≡ is_read (descriptors_of bytes.now)) }
{
    match read_loop(alloc, bytes) {
        Ok(_) => Ok(true),
        Err(LoopFault::Cut { offset: _ }) => Ok(false),
        Err(LoopFault::NoMemory) => Err(AllocError),
    }
}
