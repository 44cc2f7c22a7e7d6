//! Showing the children of a table's element.

ghost use Rattle.std.specs.Prelude.{◌≡◌, ◌++◌, ◌∷◌, [], map, drop, option_map, true, IfOk, IsTrue, if◌then◌else◌};
ghost use Rattle.std.specs.List.{list_all};
ghost use Rattle.serde_json.specs.View.{view};
ghost use Rattle.ts_fields.specs.Layout.{rows_of, held, bytes};
ghost use Rattle.ts_table_rows.specs.TableFitting.{item_fits, items_fit};
ghost use Rattle.ts_table_rows.specs.TablePages.{item_page, table_page};
ghost use Rattle.ts_table_rows.specs.TableValues.{body_held, item_held};
ghost use Rattle.ts_json_tables.specs.TableElements;
ghost use Rattle.ts_json_tables.specs.TableElements.{children_shown, described_shown, descrs_shown, item_shown, items_shown, section_shown, shown_items};

use crate::rows::section_rows;
use crate::values::begins_with_zero;
use serde_json::Value;
use std::alloc::{AllocError, Global};
use ts_bits::{Descriptor, DescriptorList};
use ts_fields::FieldValue;
use ts_json_descr::descr_json;
use ts_jtree::{element_json, fit_is_shown};
use ts_table_rows::{ItemForm, TableBody, TableItem, TableLayout};

/// The elements of descriptors.
pub fn descrs_json(alloc: Global, descriptors: &[Descriptor]) -> Result<Vec<Value>, AllocError>
    ensures { IfOk result (λ v. map view v.items ≡ descrs_shown descriptors.now) }
{
    let mut nodes = Vec::new(alloc);
    for descriptor in descriptors {
        nodes.push(descr_json(alloc, descriptor)?)?;
    }
    Ok(nodes)
}

/// The descriptors as children, where the layout has them.
fn described_json(
    alloc: Global,
    described: bool,
    descriptors: &DescriptorList,
) -> Result<Option<Value>, AllocError>
    ensures { IfOk result (λ nodes. option_map view nodes ≡ described_shown described descriptors.now) }
{
    if !described {
        return Ok(None);
    }
    let nodes = descrs_json(alloc, descriptors.as_slice())?;
    Ok(Some(Value::Array(nodes)))
}

/// The element of an item.
fn item_json(alloc: Global, form: ItemForm, item: &TableItem) -> Result<Value, AllocError>
    requires { item_fits (item_page form) (item_held item.now) ≡ true }
    ensures { IfOk result (λ v. view v ≡ item_shown (item_page form) (item_held item.now)) }
{
    let nodes = described_json(alloc, form.described, &item.descriptors)?;
    fit_is_shown();
    element_json(alloc, form.name, form.rows, &item.values, nodes)
}

/// The elements of items.
fn items_json(alloc: Global, form: ItemForm, items: &[TableItem]) -> Result<Vec<Value>, AllocError>
    requires { list_all (item_fits (item_page form)) (map item_held items.now) ≡ true }
    ensures { IfOk result (λ v. map view v.items
        ≡ map (item_shown (item_page form)) (map item_held items.now)) }
{
    let mut nodes = Vec::new(alloc);
    for item in items {
        nodes.push(item_json(alloc, form, item)?)?;
    }
    Ok(nodes)
}

/// The elements of the items of a layout, which may have no items.
fn all_items_json(
    alloc: Global,
    form: Option<ItemForm>,
    items: &[TableItem],
) -> Result<Vec<Value>, AllocError>
    requires { items_fit (option_map item_page form) (map item_held items.now) ≡ true }
    ensures { IfOk result (λ v. map view v.items
        ≡ items_shown (option_map item_page form) (map item_held items.now)) }
{
    match form {
        Some(form) => items_json(alloc, form, items),
        None => Ok(Vec::new(alloc)),
    }
}

/// The items that are children: all but a first one with number 0.
fn items_after_zero(one_zero: bool, items: &[TableItem]) -> &[TableItem]
    ensures { map item_held result.now ≡ shown_items one_zero (map item_held items.now) }
{
    if !begins_with_zero(one_zero, items) {
        return items;
    }
    match items {
        [] => items,
        [_, others @ ..] => others,
    }
}

/// The children of a table of a layout, its descriptors first.
pub fn children_json(
    alloc: Global,
    layout: &TableLayout,
    body: &TableBody,
) -> Result<Vec<Value>, AllocError>
    requires { items_fit (table_page layout.now).items (body_held body.now).items ≡ true }
    ensures { IfOk result (λ v. map view v.items ≡ children_shown (table_page layout.now) (body_held body.now)) }
{
    let mut nodes = descrs_json(alloc, body.descriptors.as_slice())?;
    let items = items_after_zero(layout.one_zero, &body.items);
    let mut others = all_items_json(alloc, layout.items, items)?;
    nodes.append(&mut others)?;
    Ok(nodes)
}

/// The value of the one field of a section: its bytes.
fn payload_values(alloc: Global, payload: &[u8]) -> Result<Vec<FieldValue>, AllocError>
    ensures { IfOk result (λ v. map held v.items ≡ bytes payload.now ∷ []) }
{
    let payload = Vec::from_slice(alloc, payload)?;
    Ok(vec![in alloc; FieldValue::Bytes(payload)]?)
}

/// The element of the body of a section.
#[tactic(auto, unfolding(ts_jtree::specs::Shown::are_shown))]
fn section_json(alloc: Global, payload: &[u8]) -> Result<Value, AllocError>
    ensures { IfOk result (λ v. view v ≡ section_shown payload.now) }
{
    let values = payload_values(alloc, payload)?;
    element_json(alloc, "section", &section_rows(), &values, None)
}

/// The elements of the bodies of sections.
pub fn sections_json(alloc: Global, payloads: &[Vec<u8>]) -> Result<Vec<Value>, AllocError>
    ensures { IfOk result (λ v. map view v.items ≡ map section_shown (map (λ p. p.items) payloads.now)) }
{
    let mut nodes = Vec::new(alloc);
    for payload in payloads {
        nodes.push(section_json(alloc, payload)?)?;
    }
    Ok(nodes)
}
