//! Ranges of numbers as words.
ghost use Rattle.std.specs.Prelude.{◌≡◌, ◌≤◌, ◌+◌, ◌<◌, IfOk, IfSome, length};
ghost use Rattle.std.specs.List.{All};
ghost use Rattle.plugin_options.specs.NumberSet.{AllBelow};
ghost use Rattle.plugin_options.specs.Joined.{read_joined};
ghost use Rattle.plugin_options.specs.Ranges.{range_of};

use crate::NumberSet;
use crate::number::read_number_within;
use crate::signs::split_at_sign;
use std::alloc::{AllocError, Global};

/// The range of a text: a number, or two with `-` between, none of them below a least or above a greatest.
fn read_range(text: &str, least: u64, most: u64) -> Option<(u64, u64)>
    ensures value { result ≡ range_of least most text.now }
    ensures range { IfSome result (λ pair. (least ≤ pair.0) × (pair.0 ≤ pair.1) × (pair.1 ≤ most)) }
{
    let Some((low, high)) = split_at_sign(text, '-') else {
        let number = read_number_within(text, least, most)?;
        return Some((number, number));
    };
    let low = read_number_within(low, least, most)?;
    let high = read_number_within(high, least, most)?;
    if low <= high { Some((low, high)) } else { None }
}

/// The numbers and ranges of a text, joined by commas, none of them below a least or above a greatest.
pub fn read_ranges(
    alloc: Global,
    text: &str,
    least: u64,
    most: u64,
) -> Result<Option<NumberSet>, AllocError>
    ensures value { IfOk result (λ set. set ≡ read_joined (range_of least most) text.now) }
    ensures some { IfOk result (λ set. IfSome set (λ pairs. 1 ≤ length pairs)) }
    ensures below { IfOk result (λ set. IfSome set (AllBelow (most + 1))) }
    ensures above { IfOk result (λ set. IfSome set (All (λ pair. least ≤ pair.0))) }
{
    let mut pairs = Vec::new(alloc);
    let mut rest = text;
    while let Some((part, others)) = split_at_sign(rest, ',') {
        let Some(pair) = read_range(part, least, most) else {
            return Ok(None);
        };
        pairs.push(pair)?;
        rest = others;
    }
    let Some(pair) = read_range(rest, least, most) else {
        return Ok(None);
    };
    pairs.push(pair)?;
    Ok(Some(NumberSet::of(pairs)))
}
