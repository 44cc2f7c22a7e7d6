//! Layouts: the table of a descriptor's body, or of another row of fields, in the order of the standard.

use crate::field::{Field, FieldValue};

/// The fields of each item of a page.
#[derive(Clone, Copy)]
pub struct ItemLayout {
    /// The name of the item.
    pub name: &'static str,
    /// Its fields, in their order.
    pub rows: &'static [Field],
}

/// The page of a descriptor: its table in the standard.
#[derive(Clone, Copy)]
pub struct Layout {
    /// The descriptor_tag.
    pub tag: u8,
    /// The name of the descriptor.
    pub name: &'static str,
    /// The fields that are in no item, in their order.
    pub head: &'static [Field],
    /// The items; `None` where there are only fields.
    pub items: Option<ItemLayout>,
    /// How many of the fields come before the items, where these have a length of 8 bits before them and the other
    /// fields after them; `None` where the items follow all fields and go to the end of the body.
    pub counted: Option<usize>,
}

/// The values of one item.
#[derive(Drop)]
pub struct Item {
    /// In the order of the fields, without reserved bits.
    pub values: Vec<FieldValue>,
}

/// The values of a body.
#[derive(Drop)]
pub struct Body {
    /// The values of the fields before the items, in their order, without reserved bits.
    pub head: Vec<FieldValue>,
    /// The items, in their order.
    pub items: Vec<Item>,
}
