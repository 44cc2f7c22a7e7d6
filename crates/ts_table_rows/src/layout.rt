//! The layout of a table: rows of fields, and the places of descriptors and items among them.

use ts_fields::Field;

/// The place of the descriptors of a section that belong to no item.
#[derive(Clone, Copy, PartialEq, Eq)]
pub enum LoopForm {
    /// There are none.
    Absent,
    /// After the fields, with their number of bytes in 12 bits before them.
    Counted,
    /// After the fields, up to the end of the body.
    ToEnd,
}

/// The items of a table: entries, components, services, transport streams or events.
#[derive(Clone, Copy)]
pub struct ItemForm {
    /// The name of the items.
    pub name: &'static str,
    /// The fields of an item, in their order; none of them goes to the end.
    pub rows: &'static [Field],
    /// Whether descriptors follow the fields of an item, with their number of bytes in 12 bits before them.
    pub described: bool,
    /// Whether four reserved bits and the number of bytes of all items in 12 bits come before the items; otherwise
    /// the items go on to the end of the body.
    pub counted: bool,
}

/// The layout of a table, in the order of its fields in the standard.
#[derive(Clone, Copy)]
pub struct TableLayout {
    /// The name of the table.
    pub name: &'static str,
    /// The table_ids, as ranges that include both ends.
    pub ids: &'static [(u8, u8)],
    /// The name of the table_id_extension in this table; empty where it is reserved.
    pub extension: &'static str,
    /// The value of the bit after section_syntax_indicator when a section is written.
    pub private_bit: bool,
    /// The maximum section_length: 1021 or 4093.
    pub most: u16,
    /// Whether the table has one section only.
    pub single: bool,
    /// Whether this one section is a part of a longer schedule and keeps its own section numbers.
    pub keeps_numbers: bool,
    /// The first fields. The number in the first of them is the same in all sections of a table.
    pub common: &'static [Field],
    /// The fields after these and outside the items.
    pub head: &'static [Field],
    /// The place of the descriptors of the table itself.
    pub loop_form: LoopForm,
    /// The items; `None` where the table has no items.
    pub items: Option<ItemForm>,
    /// Whether at most one item may have 0 in its first field.
    pub one_zero: bool,
}
