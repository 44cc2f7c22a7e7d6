//! What an option takes where it is no number.

/// What stands in a value where it is no number, alone or behind a number and a sign.
#[derive(Clone, Copy)]
pub enum Part {
    /// A code: three printable characters of ASCII, none of them a comma.
    Code,
    /// One or more whole descriptors, tag and length first, each byte as two hexadecimal digits.
    Descriptors,
}
