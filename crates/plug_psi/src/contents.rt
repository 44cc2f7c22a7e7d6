//! The last complete tables of a PID.

ghost use Rattle.std.specs.Prelude.{◌≡◌, ℕ, ◌++◌, ◌∷◌, [], List, false, fold, IfOk, OnOk};
ghost use Rattle.ts_demux.specs.TablesOn.{Completes};
ghost use Rattle.plug_psi.specs.Contents.{with_table};
ghost use Rattle.plug_psi.specs.ContentsState.{HasContents};

use indexmap::IndexMap;
use std::alloc::{AllocError, Global};
use ts_demux::TableKey;
use ts_section::TableRun;

/// The last complete table of each key, in the order in which the keys were first complete.
pub(crate) type Tables = IndexMap<TableKey, TableRun>;

/// The contents of a PID: the last complete tables from the packets that were taken.
#[derive(Drop)]
pub(crate) struct Contents {
    tables: Tables,
}

impl Contents {
    /// The contents before a packet was taken: no tables.
    pub(crate) fn new(alloc: Global) -> Contents
        ensures { (pid : ℕ) → HasContents result pid [] }
    {
        Contents {
            tables: IndexMap::new(alloc),
        }
    }

    /// The tables.
    pub(crate) fn tables(&self) -> &Tables
        ensures { result.now ≡ self.now.tables }
    {
        &self.tables
    }

    /// Keeps those of the tables that the next packet completes which have a key, and returns whether there is one.
    pub(crate) fn keep(&mut self, tables: Vec<TableRun>) -> Result<bool, AllocError>
        ensures stands { OnOk result ((pid : ℕ) (taken : List (List ℕ)) (packet : List ℕ) → HasContents self.old pid taken
            → Completes pid taken packet tables.items → HasContents self.new pid (taken ++ packet ∷ [])) }
        ensures same { IfOk result (λ came. came ≡ false → self.new.tables.entries ≡ self.old.tables.entries) }
    {
        let came = keep_tables(&mut self.tables, tables)?;
        Ok(came)
    }
}

/// Keeps tables one after another, and returns whether one of them was kept.
fn keep_tables(kept: &mut Tables, tables: Vec<TableRun>) -> Result<bool, AllocError>
    ensures kept { OnOk result (kept.new.entries ≡ fold with_table kept.old.entries tables.items) }
    ensures same { IfOk result (λ came. came ≡ false → kept.new.entries ≡ kept.old.entries) }
{
    let mut came = false;
    for table in tables {
        came = keep_table(kept, table, came)?;
    }
    Ok(came)
}

/// Keeps a table in place of the one with the same key, or after all others, unless it has no key. Returns `came`, or
/// `true` if the table is kept.
fn keep_table(kept: &mut Tables, table: TableRun, came: bool) -> Result<bool, AllocError>
    ensures kept { OnOk result (kept.new.entries ≡ with_table kept.old.entries table) }
    ensures same { IfOk result (λ now. now ≡ false → (came ≡ false) × (kept.new.entries ≡ kept.old.entries)) }
{
    let Some(key) = TableKey::of_table(&table) else {
        return Ok(came);
    };
    kept.insert(key, table)?;
    Ok(true)
}
