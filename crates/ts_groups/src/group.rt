//! Groups of fields, and the fields of a body by the groups that are there.

ghost use Rattle.std.specs.Prelude.{◌≡◌, ◌++◌, map, nat_eq, option_map, IfOk};
ghost use Rattle.std.specs.List.{list_any};
ghost use Rattle.ts_fields.specs.Layout.{rows_of, held};
ghost use Rattle.ts_groups.specs.Groups;
ghost use Rattle.ts_groups.specs.Groups.{chosen, condition, groups_in};

use std::alloc::{AllocError, Global};
use ts_fields::{Field, FieldValue};

/// When fields are there: where a value of the fields in front is one of these.
#[derive(Clone, Copy)]
pub struct Condition {
    /// The number of the value, among those of the fields in front, from 0. Reserved bits that hold no value do not count.
    pub place: usize,
    /// The numbers for which the fields are there.
    pub values: &'static [u64],
}

/// Fields that follow one another, and are there together or not at all.
#[derive(Clone, Copy)]
pub struct FieldGroup {
    /// When they are there; `None` where they always are.
    pub when: Option<Condition>,
    /// The fields, in their order.
    pub rows: &'static [Field],
}

/// Whether fields with this condition are there, by the values of the fields in front.
fn is_there(when: Option<Condition>, values: &[FieldValue]) -> bool
    ensures { result ≡ Groups.is_there (option_map condition when) (map held values.now) }
{
    match when {
        None => true,
        Some(condition) => is_one_of(condition.values, values.get(condition.place)),
    }
}

/// Whether a value is a number of a list.
fn is_one_of(wanted: &[u64], value: Option<&FieldValue>) -> bool
    ensures { result ≡ Groups.is_one_of wanted.now (option_map (λ v. held v.now) value.entry) }
{
    match value {
        Some(FieldValue::Number(number)) => is_among(wanted, *number),
        _ => false,
    }
}

/// Whether a number is in a list.
fn is_among(wanted: &[u64], number: u64) -> bool
    ensures { result ≡ list_any (λ one. nat_eq one number) wanted.now }
{
    wanted.iter().any(|one| *one == number)
}

/// The fields of a body: those in front, and those of each group that is there by the values of those in front.
pub fn chosen_rows(
    alloc: Global,
    front: &[Field],
    groups: &[FieldGroup],
    values: &[FieldValue],
) -> Result<Vec<Field>, AllocError>
    ensures { IfOk result (λ rows. rows_of rows.items
        ≡ rows_of front.now ++ chosen (groups_in groups.now) (map held values.now)) }
{
    let mut rows = Vec::from_slice(alloc, front)?;
    for group in groups {
        if is_there(group.when, values) {
            rows.extend_from_slice(group.rows)?;
        }
    }
    Ok(rows)
}
