//! Whether a word is what an option or operand takes.
use plugin_options::{
    Takes, is_service, read_all_numbered, read_bytes, read_number_within, read_pair,
    read_pair_list, read_part, read_ranges, read_signed_within,
};
use std::alloc::{AllocError, Global};

/// Whether a word is what an option or operand takes.
pub(crate) fn fits(alloc: Global, takes: Takes, word: &str) -> Result<bool, AllocError> {
    match takes {
        Takes::Number(least, most) => Ok(read_number_within(word, least, most).is_some()),
        Takes::Signed(least, most) => Ok(read_signed_within(word, least, most).is_some()),
        Takes::Ranges(most) => Ok(read_ranges(alloc, word, 0, most)?.is_some()),
        Takes::RangesFrom(least, most) => Ok(read_ranges(alloc, word, least, most)?.is_some()),
        Takes::Pair(sign, one, other) => {
            Ok(read_pair(word, sign.character(), one, other).is_some())
        }
        Takes::Pairs(sign, one, other) => {
            Ok(read_pair_list(alloc, word, sign.character(), one, other)?.is_some())
        }
        Takes::Bytes(least, most) => Ok(read_bytes(alloc, word, least, most)?.is_some()),
        Takes::Part(part) => Ok(read_part(alloc, word, part)?.is_some()),
        Takes::Numbered(sign, range, part) => {
            Ok(read_all_numbered(alloc, word, sign.character(), range, part)?.is_some())
        }
        Takes::Choice(names) => Ok(names.contains(&word)),
        Takes::Words(names) => Ok(word.split(',').all(|part| names.contains(&part))),
        Takes::Service => Ok(is_service(word)),
        Takes::Text => Ok(true),
    }
}

/// The same form without a range.
pub(crate) fn wide(takes: Takes) -> Takes {
    let any = (0, u64::MAX);
    match takes {
        Takes::Number(_, _) => Takes::Number(0, u64::MAX),
        Takes::Signed(_, _) => Takes::Signed(i64::MIN, i64::MAX),
        Takes::Ranges(_) | Takes::RangesFrom(_, _) => Takes::RangesFrom(0, u64::MAX),
        Takes::Pair(sign, _, _) => Takes::Pair(sign, any, any),
        Takes::Pairs(sign, _, _) => Takes::Pairs(sign, any, any),
        Takes::Bytes(_, _) => Takes::Bytes(0, usize::MAX),
        Takes::Numbered(sign, _, part) => Takes::Numbered(sign, any, part),
        other => other,
    }
}

/// Whether two words are pairs of this form that may not be given together: they have their first number in common, or
/// their second one where that is checked.
pub(crate) fn clashes(checked: bool, takes: Takes, word: &str, other: &str) -> bool {
    let Takes::Pair(sign, first, second) = takes else {
        return false;
    };
    let sign = sign.character();
    match (
        read_pair(word, sign, first, second),
        read_pair(other, sign, first, second),
    ) {
        (Some(one), Some(other)) => one.0 == other.0 || (checked && one.1 == other.1),
        _ => false,
    }
}
