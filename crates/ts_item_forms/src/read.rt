//! Reading bodies with items of a form.

ghost use Rattle.std.specs.Prelude.{◌≡◌, ◌≤◌, ◌++◌, [], map, length, option_map, true, Some, IfOk, IsTrue};
ghost use Rattle.std.specs.List.{list_all};
ghost use Rattle.ts_fields.specs.Bits.{bits_of};
ghost use Rattle.ts_fields.specs.Bodies;
ghost use Rattle.ts_fields.specs.Bodies.{item_page, items_sound, page};
ghost use Rattle.ts_fields.specs.Fitting.{fits};
ghost use Rattle.ts_fields.specs.Layout.{held, rows_of};
ghost use Rattle.ts_fields.specs.Reading.{Gives};
ghost use Rattle.ts_item_forms.specs.ItemForms;
ghost use Rattle.ts_item_forms.specs.ItemForms.{form_sound, formed_exact, formed_held, formed_sound, item_fits, item_held};

use crate::form::{FormedBody, FormedItem, ItemForm};
use crate::forms_laws::{formed_is_written, item_page_is_sound, item_takes_bits};
use std::alloc::{AllocError, Global};
use ts_fields::{
    BitReader, Body, Field, FieldValue, Item, ItemLayout, Layout, NotRead, read_body,
    read_bytes_are_spelled, read_number_is_spelled, read_rows,
};
use ts_groups::chosen_rows;

/// Reads a body of at most 4096 bytes by the fields of a page and the form of the items behind them. `Outside` exactly where
/// the body is not of these, unless memory runs out.
pub fn read_formed(
    alloc: Global,
    layout: &Layout,
    form: &ItemForm,
    body: &[u8],
) -> Result<FormedBody, NotRead>
    requires short { length body.now ≤ 4096 }
    requires sound { IsTrue (formed_sound (page layout.now) (ItemForms.form form.now)) }
    requires exact { formed_exact (page layout.now) (ItemForms.form form.now) ≡ true }
    ensures read { Gives (formed_held (ItemForms.form form.now)) result
        (ItemForms.read_formed (page layout.now) (ItemForms.form form.now) (bits_of body.now)) }
    ensures fits { IfOk result (λ b. fits (page layout.now).head (map held b.head.items) ≡ true) }
    ensures items { IfOk result (λ b. list_all item_fits (map (item_held (ItemForms.form form.now)) b.items.items) ≡ true) }
{
    let values = read_all(alloc, layout, form, body)?;
    formed_is_written();
    Ok(values)
}

/// Reads the fields of a page, and items up to the end.
#[tactic(auto, unfolding(crate::specs::ItemForms::read_formed))]
fn read_all(
    alloc: Global,
    layout: &Layout,
    form: &ItemForm,
    body: &[u8],
) -> Result<FormedBody, NotRead>
    requires short { length body.now ≤ 4096 }
    requires sound { IsTrue (formed_sound (page layout.now) (ItemForms.form form.now)) }
    ensures { Gives (formed_held (ItemForms.form form.now)) result
        (ItemForms.read_formed (page layout.now) (ItemForms.form form.now) (bits_of body.now)) }
{
    let (head, rest) = read_rows(alloc, layout.head, BitReader::of(body))?;
    let items = read_each(alloc, form, rest)?;
    Ok(FormedBody { head, items })
}

/// Reads items up to the end.
fn read_each<'a>(
    alloc: Global,
    form: &ItemForm,
    from: BitReader<'a>,
) -> Result<Vec<FormedItem>, NotRead>
    requires { IsTrue (form_sound (ItemForms.form form.now)) }
    ensures { Gives (λ v. map (item_held (ItemForms.form form.now)) v.items) result
        (ItemForms.read_each (length from.entry) (ItemForms.form form.now) from.entry) }
{
    let mut items = Vec::new(alloc);
    let mut rest = from;
    item_takes_bits();
    while rest.len() != 0 {
        let (item, after) = read_item(alloc, form, rest)?;
        items.push(item)?;
        rest = after;
    }
    Ok(items)
}

/// Reads an item.
#[tactic(auto, unfolding(crate::specs::ItemForms::read_item))]
fn read_item<'a>(
    alloc: Global,
    form: &ItemForm,
    from: BitReader<'a>,
) -> Result<(FormedItem, BitReader<'a>), NotRead>
    requires { IsTrue (form_sound (ItemForms.form form.now)) }
    ensures { Gives (λ x. (item_held (ItemForms.form form.now) x.0, x.1)) result
        (ItemForms.read_item (ItemForms.form form.now) from.entry) }
{
    let (first, rest) = read_rows(alloc, form.head, from)?;
    let further = chosen_rows(alloc, &[], form.groups, &first)?;
    item_page_is_sound();
    let (more, rest) = read_rows(alloc, &further, rest)?;
    let (items, rest) = read_inner(alloc, form.inner, rest)?;
    let rows = joined_rows(alloc, form.head, &further)?;
    let head = joined_values(first, more)?;
    let body = Body { head, items };
    Ok((FormedItem { rows, body }, rest))
}

/// The fields in front, and further ones behind them.
fn joined_rows(alloc: Global, front: &[Field], further: &[Field]) -> Result<Vec<Field>, AllocError>
    ensures { IfOk result (λ rows. rows_of rows.items ≡ rows_of front.now ++ rows_of further.now) }
{
    let mut rows = Vec::from_slice(alloc, front)?;
    rows.extend_from_slice(further)?;
    Ok(rows)
}

/// The values in front, and further ones behind them.
fn joined_values(
    mut values: Vec<FieldValue>,
    further: Vec<FieldValue>,
) -> Result<Vec<FieldValue>, AllocError>
    ensures { IfOk result (λ v. map held v.items ≡ map held values.items ++ map held further.items) }
{
    for value in further {
        values.push(value)?;
    }
    Ok(values)
}

/// Reads the items in an item, where it has such.
fn read_inner<'a>(
    alloc: Global,
    inner: Option<ItemLayout>,
    from: BitReader<'a>,
) -> Result<(Vec<Item>, BitReader<'a>), NotRead>
    requires { IsTrue (items_sound (option_map item_page inner)) }
    ensures { Gives (λ x. (map Bodies.item_held x.0.items, x.1)) result
        (ItemForms.read_inner (option_map item_page inner) from.entry) }
{
    match inner {
        None => Ok((Vec::new(alloc), from)),
        Some(layout) => read_loop(alloc, layout, from),
    }
}

/// Reads items in as many bytes as a length of 8 bits before them says.
#[tactic(auto, unfolding(ts_fields::specs::Bodies::read_loop))]
fn read_loop<'a>(
    alloc: Global,
    layout: ItemLayout,
    from: BitReader<'a>,
) -> Result<(Vec<Item>, BitReader<'a>), NotRead>
    requires { IsTrue (items_sound (Some (item_page layout))) }
    ensures { Gives (λ x. (map Bodies.item_held x.0.items, x.1)) result
        (Bodies.read_loop (rows_of layout.rows.now) from.entry) }
{
    let Some((count, rest)) = from.number(8) else {
        return Err(NotRead::Outside);
    };
    let (bytes, rest) = rest.bytes(alloc, count as usize)?;
    read_number_is_spelled();
    read_bytes_are_spelled();
    let items = read_items(alloc, layout, &bytes)?;
    Ok((items, rest))
}

/// Reads items that fill these bytes.
fn read_items(alloc: Global, layout: ItemLayout, bytes: &[u8]) -> Result<Vec<Item>, NotRead>
    requires short { length bytes.now ≤ 4096 }
    requires sound { IsTrue (items_sound (Some (item_page layout))) }
    ensures { Gives (λ v. map Bodies.item_held v.items) result
        (Bodies.read_items (length (bits_of bytes.now)) (rows_of layout.rows.now) (bits_of bytes.now)) }
{
    let page = Layout {
        tag: 0,
        name: "",
        head: &[],
        items: Some(layout),
        counted: None,
    };
    let body = read_body(alloc, &page, bytes)?;
    Ok(body.items)
}
