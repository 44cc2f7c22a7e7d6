//! Why bytes are not a section, and why sections are not a run.

/// A rule of sections whose fault has no number to report.
#[derive(Debug, Clone, Copy, PartialEq, Eq)]
pub enum SectionRule {
    /// The table_id is 0xFF, with which stuffing begins.
    Stuffing,
    /// Bytes follow the end of the section.
    Trailing,
    /// The section_length is too small for the head and the CRC of the long form.
    ShortLong,
    /// The section_number is above the last_section_number.
    Numbers,
}

/// The first broken rule of bytes that should be a section.
#[derive(Debug, Clone, Copy, PartialEq, Eq)]
pub enum SectionFault {
    /// Only `found` bytes are there and `wanted` are needed: 3 for the first fields, then the whole section.
    Short { wanted: usize, found: usize },
    /// A rule without numbers is broken.
    Invalid { rule: SectionRule },
    /// The section_length is above 4093.
    TooLong { length: u16 },
    /// The last four bytes are `found`; the CRC of the bytes before them is `wanted`.
    BadCrc { wanted: u32, found: u32 },
    /// No rule is broken, but memory ran out.
    NoMemory,
}

/// Sections that are not one whole run.
#[derive(Debug, Clone, Copy, PartialEq, Eq)]
pub struct RunFault {
    /// The index of the first section at which no run continues, or the number of sections where some are missing.
    pub place: usize,
}
