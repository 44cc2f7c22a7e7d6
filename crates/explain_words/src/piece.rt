//! The piece of a value that is not read as a number.
use plugin_options::{Takes, read_number_within, read_signed_within, split_at_sign};

// The text, where it is no number of any range.
fn no_number(text: &str) -> Option<&str> {
    match read_number_within(text, 0, u64::MAX) {
        Some(_) => None,
        None => Some(text),
    }
}

// The text, where it is no number of any range, with `-` in front or without.
fn no_signed(text: &str) -> Option<&str> {
    match read_signed_within(text, i64::MIN, i64::MAX) {
        Some(_) => None,
        None => Some(text),
    }
}

// The first text that is no number, of the two beside a sign.
fn no_number_of_two<'a>(one: &'a str, other: &'a str) -> Option<&'a str> {
    match no_number(one) {
        Some(piece) => Some(piece),
        None => no_number(other),
    }
}

// The piece of one part: a number, a range, a pair, or what stands behind a number.
fn wrong_in_part(takes: Takes, part: &str) -> Option<&str> {
    match takes {
        Takes::Number(_, _) => no_number(part),
        Takes::Signed(_, _) => no_signed(part),
        Takes::Ranges(_) | Takes::RangesFrom(_, _) => {
            match split_at_sign(part, '-') {
                Some((low, high)) => no_number_of_two(low, high),
                None => no_number(part),
            }
        }
        Takes::Pair(sign, _, _) | Takes::Pairs(sign, _, _) => {
            match split_at_sign(part, sign.character()) {
                Some((one, other)) => no_number_of_two(one, other),
                None => None,
            }
        }
        Takes::Numbered(sign, _, _) => {
            match split_at_sign(part, sign.character()) {
                Some((number, _)) => no_number(number),
                None => None,
            }
        }
        Takes::Bytes(_, _)
        | Takes::Part(_)
        | Takes::Choice(_)
        | Takes::Words(_)
        | Takes::Service
        | Takes::Text => None,
    }
}

/// The first piece of a value that should be a number and is none; commas join what a list takes.
pub(crate) fn wrong_piece(takes: Takes, value: &str) -> Option<&str> {
    match takes {
        Takes::Ranges(_)
        | Takes::RangesFrom(_, _)
        | Takes::Pairs(_, _, _)
        | Takes::Numbered(_, _, _) => {
            for part in value.split(',') {
                if let Some(piece) = wrong_in_part(takes, part) {
                    return Some(piece);
                }
            }
            None
        }
        _ => wrong_in_part(takes, value),
    }
}
