//! Reading and writing bodies whose first fields say which others are there.

ghost use Rattle.std.specs.Prelude.{◌≡◌, ◌≤◌, [], map, length, true, IsTrue, IfOk};
ghost use Rattle.ts_fields.specs.Bits.{bits_of};
ghost use Rattle.ts_fields.specs.Bodies.{page, read_page};
ghost use Rattle.ts_fields.specs.Fitting.{fits, shaped};
ghost use Rattle.ts_fields.specs.Layout.{held, rows_of};
ghost use Rattle.ts_fields.specs.Reading.{Gives};
ghost use Rattle.ts_fields.specs.SoundRows.{are_sound, rows_sound};
ghost use Rattle.ts_fields.specs.Spelling.{spell_rows};
ghost use Rattle.ts_groups.specs.Groups;
ghost use Rattle.ts_groups.specs.Groups.{fields_alone, grouped_held, grouped_sound, groups_in, values_alone};

use crate::group::{FieldGroup, chosen_rows};
use std::alloc::{AllocError, Global};
use ts_fields::{
    BitReader, BitWriter, Field, FieldValue, Layout, NotRead, length_of_read_rows,
    length_of_spelled_rows, read_rows, write_rows,
};

/// A body whose first fields say which others are there.
#[derive(Drop)]
pub struct GroupedBody {
    /// The fields that are there, in their order.
    pub rows: Vec<Field>,
    /// Their values, in the same order, without reserved bits that hold none.
    pub values: Vec<FieldValue>,
}

/// Reads a body of at most 4096 bytes by the fields of a page and the groups behind them: all fields that are there, and
/// their values. `Outside` exactly where the body is not of these fields, unless memory runs out.
#[tactic(auto, unfolding(crate::specs::Groups::read_grouped))]
pub fn read_grouped(
    alloc: Global,
    layout: &Layout,
    groups: &[FieldGroup],
    body: &[u8],
) -> Result<GroupedBody, NotRead>
    requires short { length body.now ≤ 4096 }
    requires sound { IsTrue (grouped_sound (page layout.now) (groups_in groups.now)) }
    ensures read { Gives (grouped_held (page layout.now)) result
        (Groups.read_grouped (page layout.now) (groups_in groups.now) (bits_of body.now)) }
    ensures fits { IfOk result (λ b. fits (rows_of b.rows.items) (map held b.values.items) ≡ true) }
{
    let (first, _) = read_rows(alloc, layout.head, BitReader::of(body))?;
    let rows = chosen_rows(alloc, layout.head, groups, &first)?;
    let values = read_alone(alloc, layout, &rows, body)?;
    Ok(GroupedBody { rows, values })
}

/// Reads a body of these fields alone.
#[tactic(auto, unfolding(ts_fields::specs::Bodies::read_page, ts_fields::specs::Bodies::read_after))]
fn read_alone(
    alloc: Global,
    layout: &Layout,
    rows: &[Field],
    body: &[u8],
) -> Result<Vec<FieldValue>, NotRead>
    requires short { length body.now ≤ 4096 }
    requires sound { IsTrue (are_sound (rows_of rows.now)) }
    ensures read { Gives (λ v. values_alone (map held v.items)) result
        (read_page (fields_alone (page layout.now) (rows_of rows.now)) (bits_of body.now)) }
    ensures fits { IfOk result (λ v. fits (rows_of rows.now) (map held v.items) ≡ true) }
{
    let (values, rest) = read_rows(alloc, rows, BitReader::of(body))?;
    length_of_read_rows();
    if rest.len() != 0 {
        return Err(NotRead::Outside);
    }
    Ok(values)
}

/// The bytes of fields with these values. An `AllocError` where memory runs out.
pub fn write_fields(
    alloc: Global,
    rows: &[Field],
    values: &[FieldValue],
) -> Result<Vec<u8>, AllocError>
    requires sound { IsTrue (rows_sound (rows_of rows.now)) }
    requires shaped { shaped (rows_of rows.now) (map held values.now) ≡ true }
    ensures { IfOk result (λ bytes. bits_of bytes.items
        ≡ spell_rows (rows_of rows.now) (map held values.now)) }
{
    let mut out = BitWriter::new(alloc);
    write_rows(&mut out, rows, values)?;
    length_of_spelled_rows();
    Ok(out.into_bytes())
}
