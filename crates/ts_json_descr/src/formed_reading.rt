//! Reading descriptors with items of a form from JSON elements.

ghost use Rattle.std.specs.Prelude.{◌≡◌, map, option_map, true, IsTrue};
ghost use Rattle.serde_json.specs.View.{view, items_view, members_view};
ghost use Rattle.ts_fields.specs.Bits.{bits_of};
ghost use Rattle.ts_fields.specs.Bodies.{page, page_sound, body_held};
ghost use Rattle.ts_fields.specs.Layout.{rows_of, held};
ghost use Rattle.ts_item_forms.specs.ItemForms;
ghost use Rattle.ts_item_forms.specs.ItemForms.{form_sound, formed_held, formed_sound, item_held, page_of_rows};
ghost use Rattle.ts_jtree.specs.Faults.{Answers, at_child};
ghost use Rattle.ts_json_descr.specs.DescrReading;
ghost use Rattle.ts_json_descr.specs.DescrReading.{read_formed_holding, read_holding};

use crate::reading::{read_children, sized_descr};
use serde_json::{Map, Value};
use std::alloc::Global;
use ts_bits::Descriptor;
use ts_fields::{Body, Field, Layout};
use ts_groups::chosen_rows;
use ts_item_forms::{FormedBody, FormedItem, ItemForm, item_page_is_sound, write_formed};
use ts_jtree::{
    ReadRefusal, at_child, check_keys, check_name, children, element_name, members,
    read_attributes, values_are_shaped,
};

/// The values of the fields that an item of a form has, and the items in it.
#[tactic(auto, unfolding(crate::specs::DescrReading::read_holding))]
fn read_item_body(
    alloc: Global,
    form: &ItemForm,
    rows: &[Field],
    members: &Map<String, Value>,
) -> Result<Body, ReadRefusal>
    requires { IsTrue (page_sound (page_of_rows (ItemForms.form form.now) (rows_of rows.now))) }
    ensures { Answers body_held result
        (read_holding (page_of_rows (ItemForms.form form.now) (rows_of rows.now)) (members_view members.now.entries)) }
{
    check_keys(alloc, rows, members)?;
    let head = read_attributes(alloc, rows, members)?;
    let nodes = children(alloc, members)?;
    let items = read_children(alloc, form.inner, nodes)?;
    Ok(Body { head, items })
}

/// An item of a form, whose first attributes say which others there are.
#[tactic(auto, unfolding(crate::specs::DescrReading::read_formed_item))]
fn read_formed_item(
    alloc: Global,
    form: &ItemForm,
    value: &Value,
) -> Result<FormedItem, ReadRefusal>
    requires { IsTrue (form_sound (ItemForms.form form.now)) }
    ensures { Answers (item_held (ItemForms.form form.now)) result
        (DescrReading.read_formed_item (ItemForms.form form.now) (view value.now)) }
{
    let members = members(alloc, value)?;
    let name = element_name(alloc, members)?;
    check_name(alloc, form.name, name)?;
    let first = read_attributes(alloc, form.head, members)?;
    let rows = chosen_rows(alloc, form.head, form.groups, &first)?;
    item_page_is_sound();
    let body = read_item_body(alloc, form, &rows, members)?;
    Ok(FormedItem { rows, body })
}

/// The item of a form that is the child with this number.
fn read_formed_item_at(
    alloc: Global,
    form: &ItemForm,
    place: usize,
    value: &Value,
) -> Result<FormedItem, ReadRefusal>
    requires { IsTrue (form_sound (ItemForms.form form.now)) }
    ensures { Answers (item_held (ItemForms.form form.now)) result
        (at_child place (DescrReading.read_formed_item (ItemForms.form form.now) (view value.now))) }
{
    match read_formed_item(alloc, form, value) {
        Ok(item) => Ok(item),
        Err(refusal) => Err(at_child(alloc, place, refusal)),
    }
}

/// Items of a form, each of them a child.
fn read_formed_items(
    alloc: Global,
    form: &ItemForm,
    nodes: &[Value],
) -> Result<Vec<FormedItem>, ReadRefusal>
    requires { IsTrue (form_sound (ItemForms.form form.now)) }
    ensures { Answers (λ v. map (item_held (ItemForms.form form.now)) v.items) result
        (DescrReading.read_formed_items (ItemForms.form form.now) 0 (items_view nodes.now)) }
{
    let mut items = Vec::new(alloc);
    let mut place = 0;
    for value in nodes {
        let item = read_formed_item_at(alloc, form, place, value)?;
        items.push(item)?;
        place += 1;
    }
    Ok(items)
}

/// The values of an element of a page with items of a form, whose name was checked before.
#[tactic(auto, unfolding(crate::specs::DescrReading::read_formed_holding))]
fn read_formed_body(
    alloc: Global,
    layout: &Layout,
    form: &ItemForm,
    members: &Map<String, Value>,
) -> Result<FormedBody, ReadRefusal>
    requires { IsTrue (formed_sound (page layout.now) (ItemForms.form form.now)) }
    ensures { Answers (formed_held (ItemForms.form form.now)) result
        (read_formed_holding (page layout.now) (ItemForms.form form.now) (members_view members.now.entries)) }
{
    check_keys(alloc, layout.head, members)?;
    let head = read_attributes(alloc, layout.head, members)?;
    let nodes = children(alloc, members)?;
    let items = read_formed_items(alloc, form, nodes)?;
    Ok(FormedBody { head, items })
}

/// The descriptor of an element of a page with items of a form.
#[tactic(auto, unfolding(crate::specs::DescrReading::read_formed))]
pub(crate) fn read_formed(
    alloc: Global,
    layout: &Layout,
    form: &ItemForm,
    members: &Map<String, Value>,
) -> Result<Descriptor, ReadRefusal>
    requires { IsTrue (formed_sound (page layout.now) (ItemForms.form form.now)) }
    ensures { Answers (λ d. (d.tag, bits_of d.body)) result
        (DescrReading.read_formed (page layout.now) (ItemForms.form form.now) (members_view members.now.entries)) }
{
    let body = read_formed_body(alloc, layout, form, members)?;
    values_are_shaped();
    item_page_is_sound();
    let bytes = write_formed(alloc, layout, form, &body)?;
    sized_descr(alloc, layout.tag, &bytes)
}
