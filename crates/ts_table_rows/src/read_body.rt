//! Reading the body of one section.

ghost use Rattle.std.specs.Prelude.{◌≡◌, ◌≤◌, map, length, option_map, ◌++◌, IfOk, IsTrue};
ghost use Rattle.ts_fields.specs.Layout.{held};
ghost use Rattle.ts_fields.specs.Bits.{bits_of};
ghost use Rattle.ts_table_rows.specs.BodyReading;
ghost use Rattle.ts_table_rows.specs.BodyReading.{Answers, seen_so_far};
ghost use Rattle.ts_table_rows.specs.TablePages.{item_page, item_sound, items_sound, table_page, page_sound};
ghost use Rattle.ts_table_rows.specs.TableValues.{item_held, body_held};

use crate::fault::{BodyStop, TableRule};
use crate::layout::{ItemForm, TableLayout};
use crate::read_item::{first_number, read_items};
use crate::read_loop::{read_counted, read_fields, read_own_loop};
use crate::table::{TableBody, TableItem};
use std::alloc::{AllocError, Global};
use ts_fields::{BitReader, FieldValue};

/// What the sections of a run have shown so far.
#[derive(Clone, Copy)]
pub struct SeenSoFar {
    /// The number that all sections have in common, if there was a section.
    pub first: Option<u64>,
    /// Whether there was an item with 0 in its first field.
    pub zero: bool,
}

/// `Trailing` where `left` bits, more than none, are left before the end of the body.
fn check_end(left: usize) -> Result<bool, BodyStop>
    ensures { Answers (λ all. all) result (BodyReading.nothing_left left) }
{
    if left == 0 {
        return Ok(true);
    }
    Err(BodyStop::At {
        rule: TableRule::Trailing,
        left,
    })
}

/// Reads items after four reserved bits and the number of their bytes in 12 bits.
#[tactic(auto, unfolding(crate::specs::BodyReading::read_counted_items))]
fn read_counted_items<'a>(
    alloc: Global,
    one_zero: bool,
    form: ItemForm,
    seen: bool,
    from: BitReader<'a>,
) -> Result<(Vec<TableItem>, bool), BodyStop>
    requires { IsTrue (item_sound (item_page form)) }
    ensures { Answers (λ x. (map item_held x.0.items, x.1)) result
        (BodyReading.read_counted_items one_zero (item_page form) seen from.entry) }
{
    let left = from.len();
    let Some((_, rest)) = from.number(4) else {
        return Err(BodyStop::At {
            rule: TableRule::Short,
            left,
        });
    };
    let (row, rest) = read_counted(alloc, TableRule::Short, rest.len(), 0, rest)?;
    let behind = rest.len();
    let items = read_items(alloc, one_zero, form, seen, behind, BitReader::of(&row))?;
    check_end(behind)?;
    Ok(items)
}

/// Reads what follows the descriptors of the table itself: items, or nothing.
#[tactic(auto, unfolding(crate::specs::BodyReading::read_after))]
fn read_after<'a>(
    alloc: Global,
    one_zero: bool,
    items: Option<ItemForm>,
    seen: bool,
    from: BitReader<'a>,
) -> Result<(Vec<TableItem>, bool), BodyStop>
    requires { IsTrue (items_sound (option_map item_page items)) }
    ensures { Answers (λ x. (map item_held x.0.items, x.1)) result
        (BodyReading.read_after one_zero (option_map item_page items) seen from.entry) }
{
    match items {
        Some(form) if form.counted => read_counted_items(alloc, one_zero, form, seen, from),
        Some(form) => read_items(alloc, one_zero, form, seen, 0, from),
        None => {
            check_end(from.len())?;
            Ok((Vec::new(alloc), seen))
        }
    }
}

/// Whether a number is that of the first section.
fn is_same(first: Option<u64>, found: Option<u64>) -> bool
    ensures { result ≡ BodyReading.is_same first found }
{
    match (first, found) {
        (None, _) => true,
        (Some(_), None) => false,
        (Some(first), Some(found)) => first == found,
    }
}

/// Reads the fields outside the items, and returns the number that all sections have in common.
#[tactic(auto, unfolding(crate::specs::BodyReading::read_heading))]
fn read_heading<'a>(
    alloc: Global,
    layout: &TableLayout,
    first: Option<u64>,
    from: BitReader<'a>,
) -> Result<(Vec<FieldValue>, Option<u64>, BitReader<'a>), BodyStop>
    requires { IsTrue (page_sound (table_page layout.now)) }
    ensures { Answers (λ x. (map held x.0.items, x.1, x.2)) result
        (BodyReading.read_heading (table_page layout.now) first from.entry) }
{
    let left = from.len();
    let (values, rest) = read_fields(alloc, TableRule::Short, 0, layout.common, from)?;
    let found = first_number(&values);
    if !is_same(first, found) {
        return Err(BodyStop::At {
            rule: TableRule::Mixed,
            left,
        });
    }
    let (more, rest) = read_fields(alloc, TableRule::Short, 0, layout.head, rest)?;
    let values = with_more(values, more)?;
    Ok((values, found, rest))
}

/// Two lists, joined.
pub fn with_more<T: Drop>(first: Vec<T>, more: Vec<T>) -> Result<Vec<T>, AllocError>
    ensures { IfOk result (λ v. v.items ≡ first.items ++ more.items) }
{
    let mut first = first;
    let mut more = more;
    first.append(&mut more)?;
    Ok(first)
}

/// Reads the body of one section, and returns what the sections have shown so far.
#[tactic(auto, unfolding(crate::specs::BodyReading::read_body))]
pub fn read_body<'a>(
    alloc: Global,
    layout: &TableLayout,
    seen: SeenSoFar,
    from: BitReader<'a>,
) -> Result<(TableBody, SeenSoFar), BodyStop>
    requires { IsTrue (page_sound (table_page layout.now)) }
    ensures { Answers (λ x. (body_held x.0, seen_so_far x.1)) result
        (BodyReading.read_body (table_page layout.now) (seen_so_far seen) from.entry) }
{
    let (values, first, rest) = read_heading(alloc, layout, seen.first, from)?;
    let (descriptors, rest) = read_own_loop(alloc, layout.loop_form, rest)?;
    let (items, zero) = read_after(alloc, layout.one_zero, layout.items, seen.zero, rest)?;
    let body = TableBody {
        values,
        descriptors,
        items,
    };
    Ok((body, SeenSoFar { first, zero }))
}
