//! The items of a table as structs.

ghost use Rattle.std.specs.Prelude.{◌≡◌, map, true, IfOk, OnOk};
ghost use Rattle.std.specs.List.{list_all};
ghost use Rattle.ts_table_rows.specs.TableValues.{item_held};

use crate::item::Item;
use crate::table::TableItem;
use std::alloc::{AllocError, Global};
use std::marker::Model;

/// Structs for the items of a table, in their order.
#[derive(Drop)]
pub struct ItemList<T: Drop> {
    items: Vec<T>,
}

// Contracts see the list of the structs.
impl<T: Drop> Model for ItemList<T> {
    ghost use Rattle.std.specs.Prelude.{List};

    ghost Value = { List T };

    ghost view = { λ l. l.items.items };
}

impl<T: Item> ItemList<T> {
    /// The list of these structs. It allocates nothing.
    pub fn of(items: Vec<T>) -> ItemList<T>
        ensures { result ≡ items.items }
    {
        ItemList { items }
    }

    /// The structs as a slice.
    pub fn as_slice(&self) -> &[T]
        ensures { result.now ≡ self.now }
    {
        &self.items
    }

    /// The `Vec` of the structs.
    pub fn into_vec(self) -> Vec<T>
        ensures { result.items ≡ self }
    {
        self.items
    }

    /// An equal list.
    pub fn copy(&self) -> Result<ItemList<T>, AllocError>
        ensures { IfOk result (λ l. l ≡ self.now) }
    {
        let mut items = Vec::new(*self.items.allocator());
        let held = self.as_slice();
        for item in held {
            let copied = item.copy()?;
            items.push(copied)?;
        }
        Ok(ItemList { items })
    }

    /// The structs of the items of a table.
    pub fn read(alloc: Global, items: Vec<TableItem>) -> Result<ItemList<T>, AllocError>
        requires { list_all T.fits (map item_held items.items) ≡ true }
        ensures { IfOk result (λ l. map T.as_item l ≡ map item_held items.items) }
    {
        let mut read = Vec::new(alloc);
        for item in items {
            read.push(T::of(item))?;
        }
        Ok(ItemList { items: read })
    }

    /// The items of the structs.
    pub fn write(&self, alloc: Global) -> Result<Vec<TableItem>, AllocError>
        ensures held { IfOk result (λ v. map item_held v.items ≡ map T.as_item self.now) }
        ensures fits { OnOk result (list_all T.fits (map T.as_item self.now) ≡ true) }
    {
        let mut items = Vec::new(alloc);
        let held = self.as_slice();
        for item in held {
            let written = item.to_item(alloc)?;
            items.push(written)?;
        }
        Ok(items)
    }
}
