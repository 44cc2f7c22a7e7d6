//! Structs that are items of tables.

ghost use Rattle.std.specs.Prelude.{◌≡◌, Bool, true, IfOk, OnOk};
ghost use Rattle.ts_table_rows.specs.TableValues.{ItemHolding, item_held};

use crate::table::TableItem;
use std::alloc::{AllocError, Global};

/// A struct for an item of a table, with a field for each field of the item.
pub trait Item: Drop {
    /// Its values as those of an item.
    ghost as_item: { Self → ItemHolding };

    /// Whether some struct has these values.
    ghost fits: { ItemHolding → Bool };

    /// The struct of an item of its table.
    fn of(entry: TableItem) -> Self
        requires { fits (item_held entry) ≡ true }
        ensures { as_item result ≡ item_held entry };

    /// The item of the struct, for its table.
    fn to_item(&self, alloc: Global) -> Result<TableItem, AllocError>
        ensures held { IfOk result (λ i. item_held i ≡ as_item self.now) }
        ensures fits { OnOk result (fits (as_item self.now) ≡ true) };

    /// An equal struct.
    fn copy(&self) -> Result<Self, AllocError>
        ensures { IfOk result (λ copied. copied ≡ self.now) };
}
