//! Tables: of a known layout, or given by their bytes.
//!
//! `Table` has three variants, and none for each known table: that would put a match into each of reader, writer and
//! laws, and a new table would change all of them. Who needs a `Pat` or a `Pmt` reads it from the run by `Pat::read`.
//! The payloads of a `LongTable` are plain rows of bytes.

use ts_table_rows::TableLayout;

/// A table of a known layout.
#[derive(Drop)]
pub struct LaidTable {
    /// Its layout.
    pub layout: &'static TableLayout,
    /// Its head and its body.
    pub held: ts_table_rows::Table,
}

/// One section of the short form, by its bytes.
#[derive(Drop)]
pub struct ShortTable {
    /// table_id, 0 to 254.
    pub table_id: u8,
    /// The bit after section_syntax_indicator.
    pub private: bool,
    /// The bytes after section_length, at most 4093.
    pub payload: Vec<u8>,
}

/// Sections of the long form, by the bytes of their bodies.
#[derive(Drop)]
pub struct LongTable {
    /// version_number, 0 to 31.
    pub version: u8,
    /// current_next_indicator.
    pub current: bool,
    /// table_id, 0 to 254.
    pub table_id: u8,
    /// table_id_extension.
    pub table_id_extension: u16,
    /// The bit after section_syntax_indicator, that of the first section.
    pub private: bool,
    /// section_number of the one section of an EIT, at most the last; 0 in every other table.
    pub section_number: u8,
    /// last_section_number of the one section of an EIT; 0 in every other table.
    pub last_section_number: u8,
    /// The bytes between head and CRC of each section, at most 4084: 1 to 256 sections, for an EIT one.
    pub payloads: Vec<Vec<u8>>,
}

/// A table.
#[derive(Drop)]
pub enum Table {
    /// A table of a known layout: PAT, CAT, PMT, NIT, BAT, SDT or EIT.
    Laid(LaidTable),
    /// A section of the short form.
    Short(ShortTable),
    /// Sections of the long form of no known table, or that its layout does not read.
    Long(LongTable),
}
