//! Showing descriptors as JSON elements.

ghost use Rattle.std.specs.Prelude.{◌≡◌, ◌≤◌, ◌∷◌, [], length, map, option_map, true, None, Some, IfOk, IsTrue};
ghost use Rattle.serde_json.specs.View.{view};
ghost use Rattle.ts_fields.specs.Bits.{bits_of};
ghost use Rattle.ts_fields.specs.Bodies.{page, page_fits, page_sound, body_held, item_held, item_page, all_fit, items_fit};
ghost use Rattle.ts_fields.specs.Fitting.{fits};
ghost use Rattle.ts_fields.specs.Layout.{rows_of, held, number, bytes};
ghost use Rattle.ts_groups.specs.Groups.{fields_alone, grouped_sound, groups_in, values_alone};
ghost use Rattle.ts_json_descr.specs.DescrElements.{descr_shown, body_shown, item_shown, items_shown, generic_shown, by_page, extension_typed, no_form, page_shown, typed};
ghost use Rattle.ts_item_forms.specs.ItemForms;
ghost use Rattle.ts_json_descr.specs.DescrReading.{form_good, groups_sound};
ghost use Rattle.ts_shown_pages.specs.Extensions;
ghost use Rattle.ts_shown_pages.specs.Pages;

use crate::formed_showing::formed_json;
use serde_json::Value;
use std::alloc::{AllocError, Global};
use ts_bits::Descriptor;
use ts_fields::{Body, Field, FieldValue, Item, ItemLayout, Kind, Layout, NotRead, read_body};
use ts_groups::{FieldGroup, GroupedBody, read_grouped};
use ts_item_forms::ItemForm;
use ts_jtree::{element_json, fit_is_shown};
use ts_shown_pages::{
    EXTENSION_TAG, extension_groups_of, extension_of, form_of, groups_of, layout_of,
};

/// The layout of a descriptor without a page: tag and bytes.
pub static GENERIC: Layout = Layout {
    tag: 0,
    name: "generic_descriptor",
    head: &[
        Field {
            name: "tag",
            kind: Kind::Number(8),
            absent: None,
            range: None,
        },
        Field {
            name: "data",
            kind: Kind::Hex,
            absent: None,
            range: Some((0, 255)),
        },
    ],
    items: None,
    counted: None,
};

/// The element that shows a descriptor: one with the name of its tag's page exactly where its body reads by that
/// page, and else a `generic_descriptor`. The page of an extension descriptor is that of its extension.
pub fn descr_json(alloc: Global, from: &Descriptor) -> Result<Value, AllocError>
    ensures { IfOk result (λ v. view v ≡ descr_shown from.now) }
{
    match typed_json(alloc, from)? {
        Some(value) => Ok(value),
        None => generic_json(alloc, from),
    }
}

/// The element of a descriptor by its page; `None` where it has none, or its page does not read it.
fn typed_json(alloc: Global, from: &Descriptor) -> Result<Option<Value>, AllocError>
    ensures { IfOk result (λ v. option_map view v ≡ typed from.now) }
{
    if from.tag() == EXTENSION_TAG {
        return extension_json(alloc, from.body());
    }
    tagged_json(alloc, from.tag(), from.body())
}

/// The element of the body of a descriptor with this tag; `None` where its tag has no page, or its page does not read it.
fn tagged_json(alloc: Global, tag: u8, body: &[u8]) -> Result<Option<Value>, AllocError>
    requires { length body.now ≤ 255 }
    ensures { IfOk result (λ v. option_map view v
        ≡ by_page (Pages.page_of tag) Pages.groups_of Pages.form_of body.now) }
{
    let Some(layout) = layout_of(tag) else {
        return Ok(None);
    };
    by_form_json(
        alloc,
        layout,
        groups_of(layout.tag),
        form_of(layout.tag),
        body,
    )
}

/// The element of a body by a page, by its groups and the form of its items; `None` where the page does not read it.
fn by_form_json(
    alloc: Global,
    layout: &Layout,
    groups: Option<&[FieldGroup]>,
    form: Option<&ItemForm>,
    body: &[u8],
) -> Result<Option<Value>, AllocError>
    requires room { length body.now ≤ 255 }
    requires page { IsTrue (page_sound (page layout.now)) }
    requires groups { IsTrue (groups_sound (page layout.now) (option_map (λ g. groups_in g.now) groups)) }
    requires form { IsTrue (form_good (page layout.now) (option_map (λ f. ItemForms.form f.now) form)) }
    ensures { IfOk result (λ v. option_map view v ≡ page_shown (page layout.now)
        (option_map (λ g. groups_in g.now) groups.entry) (option_map (λ f. ItemForms.form f.now) form.entry) (bits_of body.now)) }
{
    match form {
        None => paged_json(alloc, layout, groups, body),
        Some(form) => formed_json(alloc, layout, form, body),
    }
}

/// The element of the body of an extension descriptor; `None` where it has no page, or its page does not read it.
fn extension_json(alloc: Global, body: &[u8]) -> Result<Option<Value>, AllocError>
    requires { length body.now ≤ 255 }
    ensures { IfOk result (λ v. option_map view v ≡ extension_typed body.now) }
{
    match body.split_first() {
        Some((tag, rest)) => extended_json(alloc, *tag, rest),
        None => Ok(None),
    }
}

/// The element of the bytes after this tag of an extension; `None` where it has no page, or its page does not read them.
fn extended_json(alloc: Global, tag: u8, rest: &[u8]) -> Result<Option<Value>, AllocError>
    requires { length rest.now ≤ 255 }
    ensures { IfOk result (λ v. option_map view v
        ≡ by_page (Extensions.extension_of tag) Extensions.extension_groups_of no_form rest.now) }
{
    let Some(layout) = extension_of(tag) else {
        return Ok(None);
    };
    paged_json(alloc, layout, extension_groups_of(layout.tag), rest)
}

/// The element of a body by a page, with groups or without; `None` where the page does not read it.
fn paged_json(
    alloc: Global,
    layout: &Layout,
    groups: Option<&[FieldGroup]>,
    body: &[u8],
) -> Result<Option<Value>, AllocError>
    requires room { length body.now ≤ 255 }
    requires page { IsTrue (page_sound (page layout.now)) }
    requires groups { IsTrue (groups_sound (page layout.now) (option_map (λ g. groups_in g.now) groups)) }
    ensures { IfOk result (λ v. option_map view v
        ≡ page_shown (page layout.now) (option_map (λ g. groups_in g.now) groups.entry) None (bits_of body.now)) }
{
    match groups {
        None => plain_json(alloc, layout, body),
        Some(groups) => grouped_json(alloc, layout, groups, body),
    }
}

/// The element of a body by a page whose fields are always the same; `None` where the page does not read it.
fn plain_json(alloc: Global, layout: &Layout, body: &[u8]) -> Result<Option<Value>, AllocError>
    requires room { length body.now ≤ 255 }
    requires page { IsTrue (page_sound (page layout.now)) }
    ensures { IfOk result (λ v. option_map view v ≡ page_shown (page layout.now) None None (bits_of body.now)) }
{
    match read_body(alloc, layout, body) {
        Ok(body) => Ok(Some(body_json(alloc, layout, &body)?)),
        Err(NotRead::NoMemory) => Err(AllocError),
        Err(NotRead::Outside) => Ok(None),
    }
}

/// The element of a body by a page whose first fields say which others are there; `None` where the page does not read it.
fn grouped_json(
    alloc: Global,
    layout: &Layout,
    groups: &[FieldGroup],
    body: &[u8],
) -> Result<Option<Value>, AllocError>
    requires room { length body.now ≤ 255 }
    requires groups { IsTrue (grouped_sound (page layout.now) (groups_in groups.now)) }
    ensures { IfOk result (λ v. option_map view v
        ≡ page_shown (page layout.now) (Some (groups_in groups.now)) None (bits_of body.now)) }
{
    match read_grouped(alloc, layout, groups, body) {
        Ok(body) => Ok(Some(alone_json(alloc, layout, &body)?)),
        Err(NotRead::NoMemory) => Err(AllocError),
        Err(NotRead::Outside) => Ok(None),
    }
}

/// The element of the fields that are there.
fn alone_json(alloc: Global, layout: &Layout, body: &GroupedBody) -> Result<Value, AllocError>
    requires { fits (rows_of body.now.rows.items) (map held body.now.values.items) ≡ true }
    ensures { IfOk result (λ v. view v
        ≡ body_shown (fields_alone (page layout.now) (rows_of body.now.rows.items)) (values_alone (map held body.now.values.items))) }
{
    fit_is_shown();
    element_json(alloc, layout.name, &body.rows, &body.values, None)
}

/// The element of a tag and bytes.
#[tactic(auto, unfolding(ts_jtree::specs::Shown::are_shown))]
fn generic_json(alloc: Global, from: &Descriptor) -> Result<Value, AllocError>
    ensures { IfOk result (λ v. view v ≡ generic_shown from.now) }
{
    let values = generic_values(alloc, from)?;
    element_json(alloc, GENERIC.name, GENERIC.head, &values, None)
}

/// The values of the fields of a tag and bytes.
fn generic_values(alloc: Global, from: &Descriptor) -> Result<Vec<FieldValue>, AllocError>
    ensures { IfOk result (λ v. map held v.items ≡ number from.now.tag ∷ bytes from.now.body ∷ []) }
{
    let body = Vec::from_slice(alloc, from.body())?;
    let tag = u64::from(from.tag());
    Ok(vec![in alloc; FieldValue::Number(tag), FieldValue::Bytes(body)]?)
}

/// The element of a body that a page reads: its name is the page's.
pub fn body_json(alloc: Global, layout: &Layout, body: &Body) -> Result<Value, AllocError>
    requires { page_fits (page layout.now) (body_held body.now) ≡ true }
    ensures { IfOk result (λ v. view v ≡ body_shown (page layout.now) (body_held body.now)) }
{
    let nodes = nodes_json(alloc, layout.items, &body.items)?;
    fit_is_shown();
    element_json(alloc, layout.name, layout.head, &body.head, nodes)
}

/// The items as children, where the layout has items.
pub(crate) fn nodes_json(
    alloc: Global,
    layout: Option<ItemLayout>,
    items: &[Item],
) -> Result<Option<Value>, AllocError>
    requires { items_fit (option_map item_page layout) (map item_held items.now) ≡ true }
    ensures { IfOk result (λ nodes. option_map view nodes
        ≡ items_shown (option_map item_page layout) (map item_held items.now)) }
{
    match layout {
        None => Ok(None),
        Some(layout) => {
            let nodes = items_json(alloc, layout, items)?;
            Ok(Some(Value::Array(nodes)))
        }
    }
}

/// The elements of items.
fn items_json(alloc: Global, layout: ItemLayout, items: &[Item]) -> Result<Vec<Value>, AllocError>
    requires { all_fit (rows_of layout.rows.now) (map item_held items.now) ≡ true }
    ensures { IfOk result (λ v. map view v.items
        ≡ map (item_shown (item_page layout)) (map item_held items.now)) }
{
    let mut nodes = Vec::new(alloc);
    for item in items {
        nodes.push(item_json(alloc, layout, item)?)?;
    }
    Ok(nodes)
}

/// The element of an item.
fn item_json(alloc: Global, layout: ItemLayout, item: &Item) -> Result<Value, AllocError>
    requires { fits (rows_of layout.rows.now) (item_held item.now) ≡ true }
    ensures { IfOk result (λ v. view v ≡ item_shown (item_page layout) (item_held item.now)) }
{
    fit_is_shown();
    element_json(alloc, layout.name, layout.rows, &item.values, None)
}
