//! Values as a list.

ghost use Rattle.std.specs.Prelude.{◌≡◌, IfOk};

use std::alloc::{AllocError, Global};
use ts_fields::FieldValue;

/// The list of these values.
pub fn list_of<const N: usize>(
    alloc: Global,
    values: [FieldValue; N],
) -> Result<Vec<FieldValue>, AllocError>
    ensures { IfOk result (λ list. list.items ≡ values.entry) }
{
    Ok(Vec::from_array(alloc, values)?)
}
