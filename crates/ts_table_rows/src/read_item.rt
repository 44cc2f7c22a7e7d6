//! Reading the items of a body.

ghost use Rattle.std.specs.Prelude.{◌≡◌, ◌≤◌, ◌<◌, ◌+◌, map, length, nat_le, option_map, IsTrue};
ghost use Rattle.ts_fields.specs.Layout.{held, rows_of};
ghost use Rattle.ts_fields.specs.SoundRows;
ghost use Rattle.ts_table_rows.specs.BodyReading;
ghost use Rattle.ts_table_rows.specs.BodyReading.{Answers};
ghost use Rattle.ts_table_rows.specs.TablePages.{item_page, item_sound, fixed_part};
ghost use Rattle.ts_table_rows.specs.TableValues.{item_held};

use crate::fault::{BodyStop, TableRule};
use crate::layout::ItemForm;
use crate::read_laws::items_take_bits;
use crate::read_loop::{read_counted_loop, read_fields};
use crate::table::TableItem;
use std::alloc::Global;
use ts_bits::DescriptorList;
use ts_fields::{BitReader, Field, FieldValue, Kind};

/// The number of bits of a field of this kind, without the bytes of texts and data.
fn width(kind: Kind) -> u64
    ensures { result ≡ SoundRows.width kind }
{
    match kind {
        Kind::Number(count)
        | Kind::Reserved(count)
        | Kind::Zeros(count)
        | Kind::Ones(count)
        | Kind::Free(count) => u64::from(count),
        Kind::Flag => 1,
        Kind::Decimal(digits) => 4 * u64::from(digits),
        Kind::Start => 40,
        Kind::Duration => 24,
        Kind::Language | Kind::CountedText | Kind::CountedHex | Kind::Text | Kind::Hex => 0,
    }
}

/// Whether the widths of fields and `more` bits after them are within `left` bits.
fn are_there(rows: &[Field], more: u64, left: u64) -> bool
    ensures { result ≡ nat_le (SoundRows.widths (rows_of rows.now) + more) left }
{
    let mut free = left;
    for field in rows {
        let width = width(field.kind);
        if free < width {
            return false;
        }
        free -= width;
    }
    more <= free
}

/// The number in the first field; `None` where it holds none.
pub fn first_number(values: &[FieldValue]) -> Option<u64>
    ensures { result ≡ BodyReading.first_number (map held values.now) }
{
    match values {
        [FieldValue::Number(number), ..] => Some(*number),
        _ => None,
    }
}

/// Reads the descriptors of an item, if it has any.
#[tactic(auto, unfolding(crate::specs::BodyReading::read_described))]
fn read_described<'a>(
    alloc: Global,
    described: bool,
    left: usize,
    behind: usize,
    from: BitReader<'a>,
) -> Result<(DescriptorList, BitReader<'a>), BodyStop>
    requires { behind ≤ 32768 }
    ensures { Answers (λ x. (x.0, x.1)) result (BodyReading.read_described described left behind from.entry) }
{
    if described {
        read_counted_loop(alloc, TableRule::Loop, left, behind, from)
    } else {
        Ok((DescriptorList::of(Vec::new(alloc)), from))
    }
}

/// Reads one item.
#[tactic(auto, unfolding(crate::specs::BodyReading::read_item))]
fn read_item<'a>(
    alloc: Global,
    form: ItemForm,
    behind: usize,
    from: BitReader<'a>,
) -> Result<(TableItem, BitReader<'a>), BodyStop>
    requires near { behind ≤ 32768 }
    requires sound { IsTrue (item_sound (item_page form)) }
    ensures { Answers (λ x. (item_held x.0, x.1)) result
        (BodyReading.read_item (item_page form) behind from.entry) }
{
    let left = from.len() + behind;
    if !is_whole(form, from.len()) {
        return Err(BodyStop::At {
            rule: TableRule::Loop,
            left,
        });
    }
    let (values, rest) = read_fields(alloc, TableRule::Time, behind, form.rows, from)?;
    let (descriptors, rest) = read_described(alloc, form.described, left, behind, rest)?;
    let item = TableItem {
        values,
        descriptors,
    };
    Ok((item, rest))
}

/// Whether the fixed part of an item is within `left` bits.
fn is_whole(form: ItemForm, left: usize) -> bool
    ensures { result ≡ nat_le (fixed_part (item_page form)) left }
{
    let more = if form.described { 12 } else { 0 };
    are_there(form.rows, more, left as u64)
}

/// Whether there was an item with 0 in its first field up to an item with these `values`, which begins `left` bits
/// before the end of the body.
fn count_zero(
    one_zero: bool,
    seen: bool,
    values: &[FieldValue],
    left: usize,
) -> Result<bool, BodyStop>
    ensures { Answers (λ now. now) result (BodyReading.count_zero one_zero seen (map held values.now) left) }
{
    if !(one_zero && first_number(values) == Some(0)) {
        return Ok(seen);
    }
    if seen {
        return Err(BodyStop::At {
            rule: TableRule::Network,
            left,
        });
    }
    Ok(true)
}

/// Reads the next item, and returns whether there was one with 0 so far.
#[tactic(auto, unfolding(crate::specs::BodyReading::read_next))]
fn read_next<'a>(
    alloc: Global,
    one_zero: bool,
    form: ItemForm,
    seen: bool,
    behind: usize,
    from: BitReader<'a>,
) -> Result<(TableItem, bool, BitReader<'a>), BodyStop>
    requires near { behind ≤ 32768 }
    requires sound { IsTrue (item_sound (item_page form)) }
    ensures { Answers (λ x. (item_held x.0, x.1, x.2)) result
        (BodyReading.read_next one_zero (item_page form) seen behind from.entry) }
{
    let left = from.len() + behind;
    let (item, rest) = read_item(alloc, form, behind, from)?;
    let seen = count_zero(one_zero, seen, &item.values, left)?;
    Ok((item, seen, rest))
}

/// Reads items up to the end, and returns whether there was one with 0 so far.
pub fn read_items<'a>(
    alloc: Global,
    one_zero: bool,
    form: ItemForm,
    seen: bool,
    behind: usize,
    from: BitReader<'a>,
) -> Result<(Vec<TableItem>, bool), BodyStop>
    requires near { behind ≤ 32768 }
    requires sound { IsTrue (item_sound (item_page form)) }
    ensures { Answers (λ x. (map item_held x.0.items, x.1)) result
        (BodyReading.read_items (length from.entry) one_zero (item_page form) seen behind from.entry) }
{
    // It runs nothing: the proof cites it.
    items_take_bits();
    let mut items = Vec::new(alloc);
    let mut now = seen;
    let mut rest = from;
    while rest.len() != 0 {
        let (item, zero, after) = read_next(alloc, one_zero, form, now, behind, rest)?;
        items.push(item)?;
        now = zero;
        rest = after;
    }
    Ok((items, now))
}
