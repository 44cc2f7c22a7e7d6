//! Reading descriptors from JSON elements.

ghost use Rattle.std.specs.Prelude.{◌≡◌, ◌++◌, map, IsTrue, Some, option_map};
ghost use Rattle.serde_json.specs.View.{view, items_view, members_view};
ghost use Rattle.ts_fields.specs.Bits.{bits, bits_of};
ghost use Rattle.ts_fields.specs.Bodies.{page, page_sound, items_sound, body_held, item_held, item_page};
ghost use Rattle.ts_fields.specs.Layout.{rows_of, held};
ghost use Rattle.ts_fields.specs.SoundRows.{are_sound, rows_sound};
ghost use Rattle.ts_groups.specs.Groups.{fields_alone, grouped_sound, groups_in, values_alone};
ghost use Rattle.ts_item_forms.specs.ItemForms;
ghost use Rattle.ts_jtree.specs.Faults.{Answers, at_child};
ghost use Rattle.ts_json_descr.specs.DescrReading;
ghost use Rattle.ts_json_descr.specs.DescrReading.{form_good, groups_sound, read_extension, read_holding, read_by_name, descr_read, sized};
ghost use Rattle.ts_shown_pages.specs.Extensions;
ghost use Rattle.ts_shown_pages.specs.Extensions.{extension_tag};
ghost use Rattle.ts_shown_pages.specs.Pages;

use crate::formed_reading::read_formed;
use crate::showing::GENERIC;
use serde_json::{Map, Value};
use std::alloc::Global;
use ts_bits::Descriptor;
use ts_fields::{Body, Field, FieldValue, Item, ItemLayout, Layout, length_of_bits, write_body};
use ts_groups::{FieldGroup, chosen_page_is_sound, chosen_rows, write_fields};
use ts_item_forms::ItemForm;
use ts_jtree::{
    JsonKind, ReadRefusal, at_child, check_keys, children, element_name, members, no_children,
    read_attributes, read_element, refuse_key, values_are_shaped,
};
use ts_shown_pages::{
    EXTENSION_TAG, extension_groups_of, extension_named, form_of, groups_of, layout_named,
};

/// An item, which has no children itself.
#[tactic(auto, unfolding(crate::specs::DescrReading::read_item))]
fn read_item(
    alloc: Global,
    layout: ItemLayout,
    value: &Value,
) -> Result<Vec<FieldValue>, ReadRefusal>
    requires { IsTrue (are_sound (rows_of layout.rows.now)) }
    ensures { Answers (λ v. map held v.items) result
        (DescrReading.read_item (item_page layout) (view value.now)) }
{
    let (values, nodes) = read_element(alloc, layout.name, layout.rows, value)?;
    no_children(alloc, nodes)?;
    Ok(values)
}

/// The item that is the child with this number.
fn read_item_at(
    alloc: Global,
    layout: ItemLayout,
    place: usize,
    value: &Value,
) -> Result<Vec<FieldValue>, ReadRefusal>
    requires { IsTrue (are_sound (rows_of layout.rows.now)) }
    ensures { Answers (λ v. map held v.items) result
        (at_child place (DescrReading.read_item (item_page layout) (view value.now))) }
{
    match read_item(alloc, layout, value) {
        Ok(values) => Ok(values),
        Err(refusal) => Err(at_child(alloc, place, refusal)),
    }
}

/// Items, each of them a child.
fn read_items(alloc: Global, layout: ItemLayout, nodes: &[Value]) -> Result<Vec<Item>, ReadRefusal>
    requires { IsTrue (are_sound (rows_of layout.rows.now)) }
    ensures { Answers (λ v. map item_held v.items) result
        (DescrReading.read_items (item_page layout) 0 (items_view nodes.now)) }
{
    let mut items = Vec::new(alloc);
    let mut place = 0;
    for value in nodes {
        let values = read_item_at(alloc, layout, place, value)?;
        items.push(Item { values })?;
        place += 1;
    }
    Ok(items)
}

/// The children, which are items where the layout has items.
#[tactic(auto, unfolding(crate::specs::DescrReading::read_children))]
pub(crate) fn read_children(
    alloc: Global,
    layout: Option<ItemLayout>,
    nodes: &[Value],
) -> Result<Vec<Item>, ReadRefusal>
    requires { IsTrue (items_sound (option_map item_page layout)) }
    ensures { Answers (λ v. map item_held v.items) result
        (DescrReading.read_children (option_map item_page layout) (items_view nodes.now)) }
{
    match layout {
        None => {
            no_children(alloc, nodes)?;
            Ok(Vec::new(alloc))
        }
        Some(layout) => read_items(alloc, layout, nodes),
    }
}

/// The values of an element of a page, whose name was checked before, or the first fault of the element and its items.
#[tactic(auto, unfolding(crate::specs::DescrReading::read_holding))]
pub fn read_element_body(
    alloc: Global,
    layout: &Layout,
    members: &Map<String, Value>,
) -> Result<Body, ReadRefusal>
    requires { IsTrue (page_sound (page layout.now)) }
    ensures { Answers body_held result (read_holding (page layout.now) (members_view members.now.entries)) }
{
    check_keys(alloc, layout.head, members)?;
    let head = read_attributes(alloc, layout.head, members)?;
    let nodes = children(alloc, members)?;
    let items = read_children(alloc, layout.items, nodes)?;
    Ok(Body { head, items })
}

/// The descriptor of a tag and the bytes of a body, which are at most 255.
pub(crate) fn sized_descr(alloc: Global, tag: u8, bytes: &[u8]) -> Result<Descriptor, ReadRefusal>
    ensures { Answers (λ d. (d.tag, bits_of d.body)) result (sized tag (bits_of bytes.now)) }
{
    length_of_bits();
    if bytes.len() > 255 {
        return Err(refuse_key(alloc, "#name", JsonKind::OutOfRange));
    }
    Ok(Descriptor::new(alloc, tag, bytes)?)
}

/// The descriptor of an element of a page.
#[tactic(auto, unfolding(crate::specs::DescrReading::read_typed))]
fn read_typed(
    alloc: Global,
    layout: &Layout,
    members: &Map<String, Value>,
) -> Result<Descriptor, ReadRefusal>
    requires { IsTrue (page_sound (page layout.now)) }
    ensures { Answers (λ d. (d.tag, bits_of d.body)) result
        (DescrReading.read_typed (page layout.now) (members_view members.now.entries)) }
{
    let body = read_element_body(alloc, layout, members)?;
    values_are_shaped();
    let bytes = write_body(alloc, layout, &body)?;
    sized_descr(alloc, layout.tag, &bytes)
}

/// The values of an element of these fields alone, which has no children, or the first fault of the element.
#[tactic(auto, unfolding(crate::specs::DescrReading::read_holding, crate::specs::DescrReading::read_children))]
fn read_fields(
    alloc: Global,
    layout: &Layout,
    rows: &[Field],
    members: &Map<String, Value>,
) -> Result<Vec<FieldValue>, ReadRefusal>
    requires { IsTrue (are_sound (rows_of rows.now)) }
    ensures { Answers (λ v. values_alone (map held v.items)) result
        (read_holding (fields_alone (page layout.now) (rows_of rows.now)) (members_view members.now.entries)) }
{
    check_keys(alloc, rows, members)?;
    let values = read_attributes(alloc, rows, members)?;
    no_children(alloc, children(alloc, members)?)?;
    Ok(values)
}

/// The descriptor of an element of these fields alone.
#[tactic(auto, unfolding(crate::specs::DescrReading::read_typed))]
fn read_alone(
    alloc: Global,
    layout: &Layout,
    rows: &[Field],
    members: &Map<String, Value>,
) -> Result<Descriptor, ReadRefusal>
    requires { IsTrue (rows_sound (rows_of rows.now)) }
    ensures { Answers (λ d. (d.tag, bits_of d.body)) result
        (DescrReading.read_typed (fields_alone (page layout.now) (rows_of rows.now)) (members_view members.now.entries)) }
{
    let values = read_fields(alloc, layout, rows, members)?;
    values_are_shaped();
    let bytes = write_fields(alloc, rows, &values)?;
    sized_descr(alloc, layout.tag, &bytes)
}

/// The descriptor of an element whose first attributes say which others there are.
fn read_by_groups(
    alloc: Global,
    layout: &Layout,
    groups: &[FieldGroup],
    members: &Map<String, Value>,
) -> Result<Descriptor, ReadRefusal>
    requires { IsTrue (grouped_sound (page layout.now) (groups_in groups.now)) }
    ensures { Answers (λ d. (d.tag, bits_of d.body)) result
        (DescrReading.read_paged (page layout.now) (Some (groups_in groups.now)) (members_view members.now.entries)) }
{
    let first = read_attributes(alloc, layout.head, members)?;
    let rows = chosen_rows(alloc, layout.head, groups, &first)?;
    chosen_page_is_sound();
    read_alone(alloc, layout, &rows, members)
}

/// The descriptor of an element of a page, with groups or without.
fn read_paged(
    alloc: Global,
    layout: &Layout,
    groups: Option<&[FieldGroup]>,
    members: &Map<String, Value>,
) -> Result<Descriptor, ReadRefusal>
    requires page { IsTrue (page_sound (page layout.now)) }
    requires groups { IsTrue (groups_sound (page layout.now) (option_map (λ g. groups_in g.now) groups)) }
    ensures { Answers (λ d. (d.tag, bits_of d.body)) result
        (DescrReading.read_paged (page layout.now) (option_map (λ g. groups_in g.now) groups.entry) (members_view members.now.entries)) }
{
    match groups {
        None => read_typed(alloc, layout, members),
        Some(groups) => read_by_groups(alloc, layout, groups, members),
    }
}

/// The descriptor of an element of a page, by its groups and the form of its items.
fn read_by_page(
    alloc: Global,
    layout: &Layout,
    groups: Option<&[FieldGroup]>,
    form: Option<&ItemForm>,
    members: &Map<String, Value>,
) -> Result<Descriptor, ReadRefusal>
    requires page { IsTrue (page_sound (page layout.now)) }
    requires groups { IsTrue (groups_sound (page layout.now) (option_map (λ g. groups_in g.now) groups)) }
    requires form { IsTrue (form_good (page layout.now) (option_map (λ f. ItemForms.form f.now) form)) }
    ensures { Answers (λ d. (d.tag, bits_of d.body)) result
        (DescrReading.read_by_page (page layout.now) (option_map (λ g. groups_in g.now) groups.entry)
        (option_map (λ f. ItemForms.form f.now) form.entry) (members_view members.now.entries)) }
{
    match form {
        None => read_paged(alloc, layout, groups, members),
        Some(form) => read_formed(alloc, layout, form, members),
    }
}

/// The extension descriptor of an extension's tag and the bytes after it.
fn extended(alloc: Global, tag: u8, bytes: &[u8]) -> Result<Descriptor, ReadRefusal>
    ensures { Answers (λ d. (d.tag, bits_of d.body)) result (sized extension_tag (bits 8 tag ++ bits_of bytes.now)) }
{
    let mut body = vec![in alloc; tag]?;
    body.extend_from_slice(bytes)?;
    sized_descr(alloc, EXTENSION_TAG, &body)
}

/// The descriptor of an element whose name may be that of an extension descriptor.
fn read_extended(
    alloc: Global,
    name: &str,
    members: &Map<String, Value>,
) -> Result<Descriptor, ReadRefusal>
    ensures { Answers (λ d. (d.tag, bits_of d.body)) result
        (read_extension (Extensions.extension_named name.now) (members_view members.now.entries)) }
{
    let Some(layout) = extension_named(name) else {
        return Err(refuse_key(alloc, "#name", JsonKind::UnknownKey));
    };
    let groups = extension_groups_of(layout.tag);
    let inner = read_paged(alloc, layout, groups, members)?;
    extended(alloc, inner.tag(), inner.body())
}

/// The descriptor with a tag and bytes.
fn tagged(alloc: Global, values: &[FieldValue]) -> Result<Descriptor, ReadRefusal>
    requires { DescrReading.are_tagged (map held values.now) }
    ensures { Answers (λ d. (d.tag, bits_of d.body)) result (DescrReading.tagged (map held values.now)) }
{
    let [FieldValue::Number(tag), FieldValue::Bytes(body)] = values else {
        unreachable!()
    };
    Ok(Descriptor::new(alloc, *tag as u8, body)?)
}

/// The descriptor of a generic element.
#[tactic(auto, unfolding(crate::specs::DescrReading::read_generic))]
fn read_generic(alloc: Global, members: &Map<String, Value>) -> Result<Descriptor, ReadRefusal>
    ensures { Answers (λ d. (d.tag, bits_of d.body)) result
        (DescrReading.read_generic (members_view members.now.entries)) }
{
    let body = read_element_body(alloc, &GENERIC, members)?;
    tagged(alloc, &body.head)
}

/// The descriptor of an element of the page of a tag.
fn read_tagged(
    alloc: Global,
    layout: &Layout,
    members: &Map<String, Value>,
) -> Result<Descriptor, ReadRefusal>
    requires page { IsTrue (page_sound (page layout.now)) }
    requires groups { IsTrue (groups_sound (page layout.now) (Pages.groups_of layout.now.tag)) }
    requires form { IsTrue (form_good (page layout.now) (Pages.form_of layout.now.tag)) }
    ensures { Answers (λ d. (d.tag, bits_of d.body)) result
        (DescrReading.read_by_page (page layout.now) (Pages.groups_of layout.now.tag) (Pages.form_of layout.now.tag)
        (members_view members.now.entries)) }
{
    let groups = groups_of(layout.tag);
    let form = form_of(layout.tag);
    read_by_page(alloc, layout, groups, form, members)
}

/// The descriptor of an element of this name.
fn read_named(
    alloc: Global,
    name: &str,
    members: &Map<String, Value>,
) -> Result<Descriptor, ReadRefusal>
    ensures { Answers (λ d. (d.tag, bits_of d.body)) result
        (read_by_name name.now (members_view members.now.entries)) }
{
    if name == "generic_descriptor" {
        return read_generic(alloc, members);
    }
    match layout_named(name) {
        Some(layout) => read_tagged(alloc, layout, members),
        None => read_extended(alloc, name, members),
    }
}

/// The descriptor of an element, or the first fault of the element and its children. A body of more than 255
/// bytes is `OutOfRange` on `#name`, and is checked last.
#[tactic(auto, unfolding(crate::specs::DescrReading::descr_read))]
pub fn json_descr(alloc: Global, value: &Value) -> Result<Descriptor, ReadRefusal>
    ensures { Answers (λ d. (d.tag, bits_of d.body)) result (descr_read (view value.now)) }
{
    let members = members(alloc, value)?;
    let name = element_name(alloc, members)?;
    read_named(alloc, name, members)
}
