//! Reading the children of a table's element.

ghost use Rattle.std.specs.Prelude.{◌≡◌, [], ◌++◌, ◌∷◌, map, option_map, true, IfOk, IsTrue, OnOk};
ghost use Rattle.serde_json.specs.View.{view, items_view, members_view};
ghost use Rattle.ts_fields.specs.Layout.{held, rows_of};
ghost use Rattle.ts_fields.specs.SoundRows.{are_sound};
ghost use Rattle.ts_jtree.specs.Faults.{Answers, at_child};
ghost use Rattle.ts_table_rows.specs.TablePages.{item_page, items_sound, table_page, page_sound};
ghost use Rattle.ts_table_rows.specs.TableSections.{items_in, owns_in};
ghost use Rattle.ts_table_rows.specs.TableValues.{item_held};
ghost use Rattle.ts_json_tables.specs.TableReading;
ghost use Rattle.ts_json_tables.specs.TableReading.{child_thing, parted, read_each, read_section};

use crate::heading::read_bytes;
use crate::rows::{LONG_PAYLOAD, section_rows};
use serde_json::{Map, Value};
use std::alloc::{AllocError, Global};
use ts_bits::{Descriptor, DescriptorList};
use ts_json_descr::json_descr;
use ts_jtree::{
    JsonKind, ReadRefusal, at_child, check_keys, check_name, children, element_name, members,
    no_children, read_attributes, refuse_key,
};
use ts_table_rows::{ItemForm, LoopForm, TableItem, TableLayout, written_rows_are_whole};

/// A descriptor.
#[tactic(auto, unfolding(crate::specs::TableReading::read_descr))]
fn read_descr(alloc: Global, value: &Value) -> Result<Descriptor, ReadRefusal>
    ensures { Answers (λ d. d) result (TableReading.read_descr (view value.now)) }
{
    let descriptor = json_descr(alloc, value)?;
    // A law; it runs nothing.
    written_rows_are_whole();
    let _body = descriptor.body();
    Ok(descriptor)
}

/// The descriptor that is the child with this number.
fn read_descr_at(alloc: Global, place: usize, value: &Value) -> Result<Descriptor, ReadRefusal>
    ensures { Answers (λ d. d) result (at_child place (TableReading.read_descr (view value.now))) }
{
    match read_descr(alloc, value) {
        Ok(descriptor) => Ok(descriptor),
        Err(refusal) => Err(at_child(alloc, place, refusal)),
    }
}

/// Descriptors, each of them a child.
pub fn read_descrs(alloc: Global, nodes: &[Value]) -> Result<Vec<Descriptor>, ReadRefusal>
    ensures { Answers (λ v. v.items) result
        (read_each TableReading.read_descr 0 (items_view nodes.now)) }
{
    let mut descriptors = Vec::new(alloc);
    let mut place = 0;
    for value in nodes {
        let descriptor = read_descr_at(alloc, place, value)?;
        descriptors.push(descriptor)?;
        place += 1;
    }
    Ok(descriptors)
}

/// The children of an item, which are descriptors where the layout has them.
#[tactic(auto, unfolding(crate::specs::TableReading::read_described))]
fn read_described(
    alloc: Global,
    described: bool,
    nodes: &[Value],
) -> Result<Vec<Descriptor>, ReadRefusal>
    ensures { Answers (λ v. v.items) result (TableReading.read_described described (items_view nodes.now)) }
{
    if !described {
        no_children(alloc, nodes)?;
        return Ok(Vec::new(alloc));
    }
    read_descrs(alloc, nodes)
}

/// An item, whose name was checked before.
#[tactic(auto, unfolding(crate::specs::TableReading::read_item))]
fn read_item(
    alloc: Global,
    form: ItemForm,
    members: &Map<String, Value>,
) -> Result<TableItem, ReadRefusal>
    requires { IsTrue (are_sound (rows_of form.rows.now)) }
    ensures { Answers item_held result
        (TableReading.read_item (item_page form) (members_view members.now.entries)) }
{
    check_keys(alloc, form.rows, members)?;
    let values = read_attributes(alloc, form.rows, members)?;
    let nodes = children(alloc, members)?;
    let descriptors = read_described(alloc, form.described, nodes)?;
    Ok(TableItem {
        values,
        descriptors: DescriptorList::of(descriptors),
    })
}

/// A child of a table.
#[derive(Drop)]
pub enum Child {
    /// A descriptor of the table's own.
    Own(Descriptor),
    /// An item.
    Item(TableItem),
}

/// Whether a table may have descriptors of its own.
fn has_own(form: LoopForm) -> bool
    ensures { result ≡ TableReading.has_own form }
{
    match form {
        LoopForm::Absent => false,
        LoopForm::Counted | LoopForm::ToEnd => true,
    }
}

/// A descriptor of the table's own, where the layout has them.
#[tactic(auto, unfolding(crate::specs::TableReading::read_own))]
fn read_own(alloc: Global, own: bool, value: &Value) -> Result<Child, ReadRefusal>
    ensures { Answers child_thing result (TableReading.read_own own (view value.now)) }
{
    if !own {
        return Err(refuse_key(alloc, "#name", JsonKind::UnknownKey));
    }
    let descriptor = read_descr(alloc, value)?;
    Ok(Child::Own(descriptor))
}

/// The child with this name: an item, or else a descriptor.
#[tactic(auto, unfolding(crate::specs::TableReading::read_named))]
fn read_named(
    alloc: Global,
    layout: &TableLayout,
    name: &str,
    members: &Map<String, Value>,
    value: &Value,
) -> Result<Child, ReadRefusal>
    requires { IsTrue (page_sound (table_page layout.now)) }
    ensures { Answers child_thing result
        (TableReading.read_named (table_page layout.now).items
        (TableReading.has_own (table_page layout.now).loop_form) name.now
        (members_view members.now.entries) (view value.now)) }
{
    let own = has_own(layout.loop_form);
    let Some(form) = layout.items else {
        return read_own(alloc, own, value);
    };
    if name == form.name {
        let item = read_item(alloc, form, members)?;
        return Ok(Child::Item(item));
    }
    read_own(alloc, own, value)
}

/// A child of a table.
#[tactic(auto, unfolding(crate::specs::TableReading::read_child))]
fn read_child(alloc: Global, layout: &TableLayout, value: &Value) -> Result<Child, ReadRefusal>
    requires { IsTrue (page_sound (table_page layout.now)) }
    ensures { Answers child_thing result (TableReading.read_child (table_page layout.now) (view value.now)) }
{
    let members = members(alloc, value)?;
    let name = element_name(alloc, members)?;
    read_named(alloc, layout, name, members, value)
}

/// The child with this number.
fn read_child_at(
    alloc: Global,
    layout: &TableLayout,
    place: usize,
    value: &Value,
) -> Result<Child, ReadRefusal>
    requires { IsTrue (page_sound (table_page layout.now)) }
    ensures { Answers child_thing result
        (at_child place (TableReading.read_child (table_page layout.now) (view value.now))) }
{
    match read_child(alloc, layout, value) {
        Ok(child) => Ok(child),
        Err(refusal) => Err(at_child(alloc, place, refusal)),
    }
}

/// Children by their kind, each kind in its order.
#[derive(Drop)]
pub struct Children {
    /// The table's own descriptors.
    pub descriptors: Vec<Descriptor>,
    /// The items.
    pub items: Vec<TableItem>,
}

/// Appends a child to those of its kind.
fn add_child(children: &mut Children, child: Child) -> Result<(), AllocError>
    ensures own { OnOk result
        (children.new.descriptors.items ≡ children.old.descriptors.items ++ owns_in (child_thing child ∷ [])) }
    ensures items { OnOk result (map item_held children.new.items.items
        ≡ map item_held children.old.items.items ++ items_in (child_thing child ∷ [])) }
{
    match child {
        Child::Own(descriptor) => {
            children.descriptors.push(descriptor)?;
            Ok(())
        }
        Child::Item(item) => {
            children.items.push(item)?;
            Ok(())
        }
    }
}

/// The children of a table: descriptors and items, as they come.
pub fn read_children(
    alloc: Global,
    layout: &TableLayout,
    nodes: &[Value],
) -> Result<Children, ReadRefusal>
    requires { IsTrue (page_sound (table_page layout.now)) }
    ensures { Answers (λ c. (c.descriptors.items, map item_held c.items.items)) result
        (parted (read_each (TableReading.read_child (table_page layout.now)) 0 (items_view nodes.now))) }
{
    let mut children = Children {
        descriptors: Vec::new(alloc),
        items: Vec::new(alloc),
    };
    let mut place = 0;
    for value in nodes {
        let child = read_child_at(alloc, layout, place, value)?;
        add_child(&mut children, child)?;
        place += 1;
    }
    Ok(children)
}

/// The body of a section of the long form.
#[tactic(auto, unfolding(crate::specs::TableReading::read_section))]
fn read_payload(alloc: Global, value: &Value) -> Result<Vec<u8>, ReadRefusal>
    ensures { Answers (λ row. row.items) result (read_section (view value.now)) }
{
    let members = members(alloc, value)?;
    let name = element_name(alloc, members)?;
    check_name(alloc, "section", name)?;
    check_keys(alloc, &section_rows(), members)?;
    let payload = read_bytes(alloc, members, &LONG_PAYLOAD)?;
    let nodes = children(alloc, members)?;
    no_children(alloc, nodes)?;
    Ok(payload)
}

/// The body that is the child with this number.
fn read_payload_at(alloc: Global, place: usize, value: &Value) -> Result<Vec<u8>, ReadRefusal>
    ensures { Answers (λ row. row.items) result (at_child place (read_section (view value.now))) }
{
    match read_payload(alloc, value) {
        Ok(payload) => Ok(payload),
        Err(refusal) => Err(at_child(alloc, place, refusal)),
    }
}

/// The bodies of sections of the long form, each of them a child.
pub fn read_payloads(alloc: Global, nodes: &[Value]) -> Result<Vec<Vec<u8>>, ReadRefusal>
    ensures { Answers (λ v. map (λ row. row.items) v.items) result
        (read_each read_section 0 (items_view nodes.now)) }
{
    let mut payloads = Vec::new(alloc);
    let mut place = 0;
    for value in nodes {
        let payload = read_payload_at(alloc, place, value)?;
        payloads.push(payload)?;
        place += 1;
    }
    Ok(payloads)
}
