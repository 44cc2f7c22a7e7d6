//! Parts behind numbers as words.
ghost use Rattle.std.specs.Prelude.{◌≡◌, ◌<◌, IfOk, IfSome};
ghost use Rattle.std.specs.List.{All};
ghost use Rattle.plugin_options.specs.Joined.{read_joined};
ghost use Rattle.plugin_options.specs.Parts.{IsNumbered, numbered_of};

use crate::NumberedParts;
use crate::number::read_number_within;
use crate::part::Part;
use crate::part_text::read_part;
use crate::signs::split_at_sign;
use std::alloc::{AllocError, Global};
use ts_outside::FileBytes;

/// A number within its least and its greatest, with a sign and a part behind it; none for any other text.
pub fn read_numbered(
    alloc: Global,
    text: &str,
    sign: char,
    range: (u64, u64),
    part: Part,
) -> Result<Option<(u64, FileBytes)>, AllocError>
    requires { sign < 128 }
    ensures value { IfOk result (λ item. item ≡ numbered_of sign range part text.now) }
    ensures range { IfOk result (λ item. IfSome item (IsNumbered range part)) }
{
    let Some((before, after)) = split_at_sign(text, sign) else {
        return Ok(None);
    };
    let Some(number) = read_number_within(before, range.0, range.1) else {
        return Ok(None);
    };
    let Some(bytes) = read_part(alloc, after, part)? else {
        return Ok(None);
    };
    Ok(Some((number, bytes)))
}

/// The parts behind numbers in a text, joined by commas, each as `read_numbered` reads it.
pub fn read_all_numbered(
    alloc: Global,
    text: &str,
    sign: char,
    range: (u64, u64),
    part: Part,
) -> Result<Option<NumberedParts>, AllocError>
    requires { sign < 128 }
    ensures value { IfOk result (λ list. list ≡ read_joined (numbered_of sign range part) text.now) }
    ensures range { IfOk result (λ list. IfSome list (All (IsNumbered range part))) }
{
    let mut items = Vec::new(alloc);
    let mut rest = text;
    while let Some((piece, others)) = split_at_sign(rest, ',') {
        let Some(item) = read_numbered(alloc, piece, sign, range, part)? else {
            return Ok(None);
        };
        items.push(item)?;
        rest = others;
    }
    let Some(item) = read_numbered(alloc, rest, sign, range, part)? else {
        return Ok(None);
    };
    items.push(item)?;
    Ok(Some(NumberedParts::of(items)))
}
