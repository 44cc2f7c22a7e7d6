//! What options and operands take.
use crate::part::Part;
use crate::sign::Sign;

/// What an option takes, or what an operand is.
#[derive(Clone, Copy)]
pub enum Takes {
    /// A number from a least to a greatest.
    Number(u64, u64),
    /// A number from a least to a greatest, where `-` in front is below 0.
    Signed(i64, i64),
    /// Numbers and ranges joined by commas, none above a greatest.
    Ranges(u64),
    /// Numbers and ranges joined by commas, none below a least or above a greatest.
    RangesFrom(u64, u64),
    /// Two numbers with a sign between them, each with its least and its greatest.
    Pair(Sign, (u64, u64), (u64, u64)),
    /// Such pairs, joined by commas.
    Pairs(Sign, (u64, u64), (u64, u64)),
    /// Bytes, two hexadecimal digits each, from a least number of them to a greatest.
    Bytes(usize, usize),
    /// A code of three characters, or whole descriptors as hexadecimal digits.
    Part(Part),
    /// Such parts, each behind a number with its least and its greatest and a sign, joined by commas.
    Numbered(Sign, (u64, u64), Part),
    /// One of these words.
    Choice(&'static [&'static str]),
    /// Some of these words, joined by commas.
    Words(&'static [&'static str]),
    /// A service: a number from 1 to 65535, or a name.
    Service,
    /// Any text.
    Text,
}
