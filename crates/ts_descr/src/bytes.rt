//! The bytes of a text or of data as the value of a field.

ghost use Rattle.std.specs.Prelude.{◌≡◌, true, IfOk};
ghost use Rattle.ts_fields.specs.Fitting.{are_bytes};
ghost use Rattle.ts_fields.specs.Layout.{bytes, held};

use std::alloc::{AllocError, Global};
use ts_fields::FieldValue;

/// The value of a field with a text or data.
pub fn bytes_value(alloc: Global, row: &[u8]) -> Result<FieldValue, AllocError>
    ensures held { IfOk result (λ value. held value ≡ bytes row.now) }
    ensures fit { are_bytes row.now ≡ true }
{
    Ok(FieldValue::Bytes(Vec::from_slice(alloc, row)?))
}
