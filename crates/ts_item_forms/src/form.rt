//! The form of items, and bodies with such items.

use ts_fields::{Body, Field, FieldValue, ItemLayout};
use ts_groups::FieldGroup;

/// How the items of a body are read, where not all of them have the same fields, or where they have items in them.
#[derive(Clone, Copy)]
pub struct ItemForm {
    /// The name of the item.
    pub name: &'static str,
    /// The fields that each item has, in their order.
    pub head: &'static [Field],
    /// The groups of further fields, by the values of the first ones.
    pub groups: &'static [FieldGroup],
    /// The items in an item, which come behind all its fields with a length of 8 bits before them; `None` where there are
    /// no such.
    pub inner: Option<ItemLayout>,
}

/// An item of a form.
#[derive(Drop)]
pub struct FormedItem {
    /// The fields that it has, in their order.
    pub rows: Vec<Field>,
    /// Their values, without reserved bits that hold none, and the items in it.
    pub body: Body,
}

/// A body with items of a form.
#[derive(Drop)]
pub struct FormedBody {
    /// The values of the fields that are in no item, in their order, without reserved bits that hold none.
    pub head: Vec<FieldValue>,
    /// The items, in their order.
    pub items: Vec<FormedItem>,
}
