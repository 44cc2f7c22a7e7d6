//! Showing descriptors with items of a form.

ghost use Rattle.std.specs.Prelude.{◌≡◌, ◌≤◌, length, map, option_map, true, None, Some, IfOk, IsTrue};
ghost use Rattle.std.specs.List.{list_all};
ghost use Rattle.serde_json.specs.View.{view};
ghost use Rattle.ts_fields.specs.Bits.{bits_of};
ghost use Rattle.ts_fields.specs.Bodies.{page};
ghost use Rattle.ts_fields.specs.Fitting.{fits};
ghost use Rattle.ts_fields.specs.Layout.{held};
ghost use Rattle.ts_item_forms.specs.ItemForms;
ghost use Rattle.ts_item_forms.specs.ItemForms.{formed_exact, formed_held, formed_sound, item_fits, item_held};
ghost use Rattle.ts_json_descr.specs.DescrElements.{body_shown, formed_shown, page_shown};

use crate::showing::nodes_json;
use serde_json::Value;
use std::alloc::{AllocError, Global};
use ts_fields::{Layout, NotRead};
use ts_item_forms::{FormedBody, FormedItem, ItemForm, read_formed};
use ts_jtree::{element_json, fit_is_shown};

/// The element of a body by a page whose items have a form; `None` where the page does not read it.
pub(crate) fn formed_json(
    alloc: Global,
    layout: &Layout,
    form: &ItemForm,
    body: &[u8],
) -> Result<Option<Value>, AllocError>
    requires room { length body.now ≤ 255 }
    requires sound { IsTrue (formed_sound (page layout.now) (ItemForms.form form.now)) }
    requires exact { formed_exact (page layout.now) (ItemForms.form form.now) ≡ true }
    ensures { IfOk result (λ v. option_map view v
        ≡ page_shown (page layout.now) None (Some (ItemForms.form form.now)) (bits_of body.now)) }
{
    match read_formed(alloc, layout, form, body) {
        Ok(body) => Ok(Some(formed_body_json(alloc, layout, form, &body)?)),
        Err(NotRead::NoMemory) => Err(AllocError),
        Err(NotRead::Outside) => Ok(None),
    }
}

/// The element of a body with items of a form.
fn formed_body_json(
    alloc: Global,
    layout: &Layout,
    form: &ItemForm,
    body: &FormedBody,
) -> Result<Value, AllocError>
    requires fits { fits (page layout.now).head (map held body.now.head.items) ≡ true }
    requires items { list_all item_fits (map (item_held (ItemForms.form form.now)) body.now.items.items) ≡ true }
    ensures { IfOk result (λ v. view v ≡ formed_shown (page layout.now) (formed_held (ItemForms.form form.now) body.now)) }
{
    let nodes = formed_items_json(alloc, form, &body.items)?;
    fit_is_shown();
    element_json(
        alloc,
        layout.name,
        layout.head,
        &body.head,
        Some(Value::Array(nodes)),
    )
}

/// The elements of items of a form.
fn formed_items_json(
    alloc: Global,
    form: &ItemForm,
    items: &[FormedItem],
) -> Result<Vec<Value>, AllocError>
    requires { list_all item_fits (map (item_held (ItemForms.form form.now)) items.now) ≡ true }
    ensures { IfOk result (λ v. map view v.items
        ≡ map (λ x. body_shown x.0 x.1) (map (item_held (ItemForms.form form.now)) items.now)) }
{
    let mut nodes = Vec::new(alloc);
    for item in items {
        nodes.push(formed_item_json(alloc, form, item)?)?;
    }
    Ok(nodes)
}

/// The element of an item of a form, with the fields that it has.
fn formed_item_json(alloc: Global, form: &ItemForm, item: &FormedItem) -> Result<Value, AllocError>
    requires { item_fits (item_held (ItemForms.form form.now) item.now) ≡ true }
    ensures { IfOk result (λ v. view v
        ≡ body_shown (item_held (ItemForms.form form.now) item.now).0 (item_held (ItemForms.form form.now) item.now).1) }
{
    let nodes = nodes_json(alloc, form.inner, &item.body.items)?;
    fit_is_shown();
    element_json(alloc, form.name, &item.rows, &item.body.head, nodes)
}
