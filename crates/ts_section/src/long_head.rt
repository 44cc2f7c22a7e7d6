//! The fields of a long section's head.

/// The head of a section of the long form (ISO/IEC 13818-1, 2.4.4.11).
#[derive(Debug, Clone, Copy, PartialEq, Eq)]
pub struct LongHead {
    /// table_id, 0 to 254.
    pub table_id: u8,
    /// The bit after section_syntax_indicator: false for PAT, CAT and PMT, true for the tables of DVB.
    pub private: bool,
    /// table_id_extension: transport_stream_id, program_number, network_id and the like.
    pub extension: u16,
    /// version_number, 0 to 31.
    pub version: u8,
    /// current_next_indicator.
    pub current: bool,
    /// section_number, at most `last`.
    pub number: u8,
    /// last_section_number.
    pub last: u8,
}
