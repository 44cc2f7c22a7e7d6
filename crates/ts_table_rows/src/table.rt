//! The values of a table of any layout.

use ts_bits::DescriptorList;
use ts_fields::FieldValue;

/// The fields of a section's head that a table keeps.
#[derive(Clone, Copy, PartialEq, Eq)]
pub struct TableHead {
    /// table_id.
    pub table_id: u8,
    /// table_id_extension: transport_stream_id, program_number, network_id and the like, by the table.
    pub extension: u16,
    /// version_number, 0 to 31.
    pub version: u8,
    /// current_next_indicator.
    pub current: bool,
    /// section_number and last_section_number, where the table keeps them; `None` where its sections are numbered
    /// from 0.
    pub numbers: Option<(u8, u8)>,
}

/// One item of a table.
#[derive(Drop)]
pub struct TableItem {
    /// The values of its fields, in their order, without reserved bits.
    pub values: Vec<FieldValue>,
    /// Its descriptors.
    pub descriptors: DescriptorList,
}

/// The contents of the bodies of the sections of a table.
#[derive(Drop)]
pub struct TableBody {
    /// The values of the fields outside the items, in their order, without reserved bits.
    pub values: Vec<FieldValue>,
    /// The descriptors of the table itself, those of all sections joined.
    pub descriptors: DescriptorList,
    /// The items of all sections joined.
    pub items: Vec<TableItem>,
}

/// A table.
#[derive(Drop)]
pub struct Table {
    /// What the table keeps of the heads of its sections.
    pub head: TableHead,
    /// The contents of their bodies.
    pub body: TableBody,
}
