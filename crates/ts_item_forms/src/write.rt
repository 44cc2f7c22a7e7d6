//! Writing bodies with items of a form.

ghost use Rattle.std.specs.Prelude.{◌≡◌, ◌++◌, option_map, true, Some, IfOk, IsTrue, OnOk};
ghost use Rattle.ts_fields.specs.Bits.{bits_of};
ghost use Rattle.ts_fields.specs.Bodies.{body_held, item_page, items_shaped, items_sound, page, spell_loop};
ghost use Rattle.ts_fields.specs.Layout.{rows_of};
ghost use Rattle.ts_fields.specs.SoundRows.{rows_sound};
ghost use Rattle.ts_item_forms.specs.ItemForms;
ghost use Rattle.ts_item_forms.specs.ItemForms.{formed_held, formed_shaped, is_writable, item_held, spell_formed, spell_inner, spell_item};

use crate::form::{FormedBody, FormedItem, ItemForm};
use std::alloc::{AllocError, Global};
use ts_fields::{Body, ItemLayout, Layout, write_body};
use ts_groups::write_fields;

/// The bytes of a body with these values. An `AllocError` where memory runs out.
pub fn write_formed(
    alloc: Global,
    layout: &Layout,
    form: &ItemForm,
    body: &FormedBody,
) -> Result<Vec<u8>, AllocError>
    requires sound { IsTrue (rows_sound (page layout.now).head) }
    requires shaped { formed_shaped (page layout.now) (formed_held (ItemForms.form form.now) body.now) ≡ true }
    ensures { IfOk result (λ bytes. bits_of bytes.items
        ≡ spell_formed (page layout.now) (formed_held (ItemForms.form form.now) body.now)) }
{
    let mut bytes = write_fields(alloc, layout.head, &body.head)?;
    for item in &body.items {
        push_item(alloc, &mut bytes, form, item)?;
    }
    Ok(bytes)
}

/// Appends the bytes of an item.
fn push_item(
    alloc: Global,
    bytes: &mut Vec<u8>,
    form: &ItemForm,
    item: &FormedItem,
) -> Result<(), AllocError>
    requires { is_writable (item_held (ItemForms.form form.now) item.now) ≡ true }
    ensures { OnOk result (bits_of bytes.new.items
        ≡ bits_of bytes.old.items ++ spell_item (item_held (ItemForms.form form.now) item.now)) }
{
    let fields = write_fields(alloc, &item.rows, &item.body.head)?;
    bytes.extend_from_slice(&fields)?;
    let inner = inner_bytes(alloc, form.inner, &item.body)?;
    bytes.extend_from_slice(&inner)?;
    Ok(())
}

/// The bytes of the items in an item, with their length before them, where it has such.
fn inner_bytes(alloc: Global, inner: Option<ItemLayout>, body: &Body) -> Result<Vec<u8>, AllocError>
    requires sound { IsTrue (items_sound (option_map item_page inner)) }
    requires shaped { items_shaped (option_map item_page inner) (body_held body.now).items ≡ true }
    ensures { IfOk result (λ bytes. bits_of bytes.items
        ≡ spell_inner (option_map item_page inner) (body_held body.now).items) }
{
    match inner {
        None => Ok(Vec::new(alloc)),
        Some(layout) => loop_bytes(alloc, layout, body),
    }
}

/// The bytes of items with their length before them.
fn loop_bytes(alloc: Global, layout: ItemLayout, body: &Body) -> Result<Vec<u8>, AllocError>
    requires sound { IsTrue (items_sound (Some (item_page layout))) }
    requires shaped { items_shaped (Some (item_page layout)) (body_held body.now).items ≡ true }
    ensures { IfOk result (λ bytes. bits_of bytes.items
        ≡ spell_loop (rows_of layout.rows.now) (body_held body.now).items) }
{
    let page = Layout {
        tag: 0,
        name: "",
        head: &[],
        items: Some(layout),
        counted: Some(0),
    };
    let bytes = write_body(alloc, &page, body)?;
    Ok(bytes)
}
