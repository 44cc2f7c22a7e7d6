//! Reading the fields and the descriptors of a body.

ghost use Rattle.std.specs.Prelude.{◌≡◌, ◌≤◌, ◌<◌, ◌++◌, ◌*◌, map, length, option_map, option_to_list, IsTrue, IfOk, OnOk};
ghost use Rattle.ts_bits.specs.DescriptorLoop.{descriptors_of};
ghost use Rattle.ts_fields.specs.Layout.{held, rows_of};
ghost use Rattle.ts_fields.specs.SoundRows.{are_sound};
ghost use Rattle.ts_table_rows.specs.BodyReading;
ghost use Rattle.ts_table_rows.specs.BodyReading.{Answers};

use crate::fault::{BodyStop, TableRule, stop_at};
use crate::layout::LoopForm;
use std::alloc::{AllocFailed, Global};
use ts_bits::{DescriptorList, LoopFault};
use ts_fields::{
    BitReader, Field, FieldValue, read_bytes_are_spelled, read_field, read_number_is_spelled,
};

/// Reads fields one after another. Where one is missing or not of its form, `rule` is broken. `behind` bits of the
/// body follow this part of it.
pub fn read_fields<'a>(
    alloc: Global,
    rule: TableRule,
    behind: usize,
    rows: &[Field],
    from: BitReader<'a>,
) -> Result<(Vec<FieldValue>, BitReader<'a>), BodyStop>
    requires near { behind ≤ 32768 }
    requires sound { IsTrue (are_sound (rows_of rows.now)) }
    ensures { Answers (λ x. (map held x.0.items, x.1)) result
        (BodyReading.read_fields rule behind (rows_of rows.now) from.entry) }
{
    let mut values = Vec::new(alloc);
    let mut rest = from;
    for field in rows {
        let left = rest.len() + behind;
        let (value, after) = match read_field(alloc, field.kind, rest) {
            Ok(read) => read,
            Err(stop) => return Err(stop_at(stop, rule, left)),
        };
        add(&mut values, value)?;
        rest = after;
    }
    Ok((values, rest))
}

/// Appends the value of a field, if it is not reserved.
fn add(
    values: &mut Vec<FieldValue>,
    value: Option<FieldValue>,
) -> Result<(), AllocFailed<FieldValue>>
    ensures { OnOk result (values.new.items ≡ values.old.items ++ option_to_list value) }
{
    if let Some(value) = value {
        values.push(value)?;
    }
    Ok(())
}

/// Reads as many bytes as a number of 12 bits says. Where the number is cut, `rule` is broken `left` bits before the
/// end of the body.
#[tactic(auto, unfolding(crate::specs::BodyReading::read_counted))]
pub fn read_counted<'a>(
    alloc: Global,
    rule: TableRule,
    left: usize,
    behind: usize,
    from: BitReader<'a>,
) -> Result<(Vec<u8>, BitReader<'a>), BodyStop>
    requires { behind ≤ 32768 }
    ensures read { Answers (λ x. (x.0.items, x.1)) result (BodyReading.read_counted rule left behind from.entry) }
    ensures few { IfOk result (λ x. length x.0.items < 4096) }
{
    // They run nothing: the proof cites them.
    read_number_is_spelled();
    read_bytes_are_spelled();
    let whole = from.len() + behind;
    let Some((size, rest)) = from.number(12) else {
        return Err(BodyStop::At { rule, left });
    };
    match rest.bytes(alloc, size as usize) {
        Ok(read) => Ok(read),
        Err(stop) => Err(stop_at(stop, TableRule::Loop, whole)),
    }
}

/// Reads the descriptors that fill `row`; `left` bits are left from its first bit to the end of the body.
fn read_descriptors(alloc: Global, row: &[u8], left: usize) -> Result<DescriptorList, BodyStop>
    ensures { Answers (λ l. l) result (BodyReading.or_cut (descriptors_of row.now) left) }
{
    match ts_bits::read_loop(alloc, row) {
        Ok(list) => Ok(list),
        Err(LoopFault::Cut { offset }) => Err(BodyStop::At {
            rule: TableRule::Loop,
            left: left.saturating_sub(offset.saturating_mul(8)),
        }),
        Err(LoopFault::NoMemory) => Err(BodyStop::NoMemory),
    }
}

/// Reads descriptors after the number of their bytes in 12 bits.
#[tactic(auto, unfolding(crate::specs::BodyReading::read_counted_loop))]
pub fn read_counted_loop<'a>(
    alloc: Global,
    rule: TableRule,
    left: usize,
    behind: usize,
    from: BitReader<'a>,
) -> Result<(DescriptorList, BitReader<'a>), BodyStop>
    requires { behind ≤ 32768 }
    ensures { Answers (λ x. (x.0, x.1)) result (BodyReading.read_counted_loop rule left behind from.entry) }
{
    let (row, rest) = read_counted(alloc, rule, left, behind, from)?;
    let list = read_descriptors(alloc, &row, 8 * row.len() + rest.len() + behind)?;
    Ok((list, rest))
}

/// Reads descriptors up to the end of the body.
#[tactic(auto, unfolding(crate::specs::BodyReading::read_last_loop))]
fn read_last_loop<'a>(
    alloc: Global,
    from: BitReader<'a>,
) -> Result<(DescriptorList, BitReader<'a>), BodyStop>
    ensures { Answers (λ x. (x.0, x.1)) result (BodyReading.read_last_loop from.entry) }
{
    let left = from.len();
    let (row, rest) = match from.to_end(alloc) {
        Ok(read) => read,
        Err(stop) => return Err(stop_at(stop, TableRule::Short, left)),
    };
    let list = read_descriptors(alloc, &row, left)?;
    Ok((list, rest))
}

/// Reads the descriptors of the table itself.
#[tactic(auto, unfolding(crate::specs::BodyReading::read_loop))]
pub fn read_own_loop<'a>(
    alloc: Global,
    form: LoopForm,
    from: BitReader<'a>,
) -> Result<(DescriptorList, BitReader<'a>), BodyStop>
    ensures { Answers (λ x. (x.0, x.1)) result (BodyReading.read_loop form from.entry) }
{
    match form {
        LoopForm::Absent => Ok((DescriptorList::of(Vec::new(alloc)), from)),
        LoopForm::Counted => {
            let left = from.len();
            read_counted_loop(alloc, TableRule::Short, left, 0, from)
        }
        LoopForm::ToEnd => read_last_loop(alloc, from),
    }
}
