//! Fields: one row of a table of the standard, and the value of such a field.

ghost use Rattle.std.specs.Prelude.{◌≡◌, ◌≤◌};
ghost use Rattle.ts_fields.specs.Spelling.{holds};

/// How a field is coded. Numbers have their most significant bit first (ISO/IEC 13818-1, 2.2.6).
#[derive(Clone, Copy, PartialEq, Eq)]
pub enum Kind {
    /// An unsigned integer of this many bits, at most 63.
    Number(u32),
    /// This many reserved bits, at most 63. They must be ones.
    Ones(u32),
    /// This many reserved bits, at most 63. Any bits are read; ones are written.
    Free(u32),
    /// This many reserved bits, at most 63, which are ones in most streams: JSON shows them where they are not.
    Reserved(u32),
    /// This many reserved bits, at most 63, which are zeros in most streams: JSON shows them where they are not.
    Zeros(u32),
    /// One bit, which JSON shows as `true` or `false`.
    Flag,
    /// A number of this many decimal digits, at most eight, of four bits each.
    Decimal(u32),
    /// The start of an event: 16 bits of a day and six decimal digits hhmmss, or 40 ones (ETSI EN 300 468, 5.2.4).
    Start,
    /// The duration of an event: six decimal digits hhmmss (ETSI EN 300 468, 5.2.4).
    Duration,
    /// A code of a language or a country: three bytes, each 0x20 to 0x7E.
    Language,
    /// A length of 8 bits, and this many bytes of text.
    CountedText,
    /// A length of 8 bits, and this many bytes of data.
    CountedHex,
    /// A text of whole bytes up to the end of the body.
    Text,
    /// Whole bytes up to the end of the body.
    Hex,
}

impl Kind {
    /// The number of values of a field of this kind: 0 for reserved bits that JSON never shows, else 1.
    pub fn holds(self) -> usize
        ensures value { result ≡ holds self }
        ensures few { result ≤ 1 }
    {
        match self {
            Kind::Ones(_) | Kind::Free(_) => 0,
            _ => 1,
        }
    }
}

/// One row of a table of the standard.
#[derive(Clone, Copy)]
pub struct Field {
    /// The standard's name of the field; empty for reserved bits that JSON never shows.
    pub name: &'static str,
    /// How the field is coded.
    pub kind: Kind,
    /// The number that an absent JSON attribute stands for; `None` where the attribute is required.
    pub absent: Option<u64>,
    /// The least and the greatest number in JSON, or number of bytes of data; `None` where the width alone decides.
    pub range: Option<(u64, u64)>,
}

/// The value of a field.
#[derive(Drop)]
pub enum FieldValue {
    /// A number, a flag, decimal digits as a number, a start (40 bits) or a duration (24 bits).
    Number(u64),
    /// The bytes of a language or country code, of a text or of data.
    Bytes(Vec<u8>),
}
