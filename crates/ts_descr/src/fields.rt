//! Structs with a field for each named row.

ghost use Rattle.std.specs.Prelude.{◌≡◌, List, map, option_map, true, Some, IfOk};
ghost use Rattle.ts_fields.specs.Layout.{Row, Held, held};
ghost use Rattle.ts_fields.specs.Fitting.{fits, fits_uncounted};

use std::alloc::{AllocError, Global};
use ts_fields::FieldValue;

/// A struct with one field for each named row of a page, or of an item of a page, in the order of the rows.
pub trait Fields: Sized {
    /// The rows of the page or of its items.
    ghost rows: { List Row };

    /// The values of the fields, in the order of the rows.
    ghost fields: { Self → List Held };

    /// The struct with these values; it is never `None`.
    fn of(alloc: Global, values: &[FieldValue]) -> Result<Option<Self>, AllocError>
        requires { fits rows (map held values.now) ≡ true }
        ensures { IfOk result (λ o. option_map fields o ≡ Some (map held values.now)) };

    /// The values of the fields. They fit the rows, whatever the length of a counted text.
    fn values(&self, alloc: Global) -> Result<Vec<FieldValue>, AllocError>
        ensures held { IfOk result (λ v. map held v.items ≡ fields self.now) }
        ensures fit { IfOk result (λ v. fits_uncounted rows (map held v.items) ≡ true) };
}
