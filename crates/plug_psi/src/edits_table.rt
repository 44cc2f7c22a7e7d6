//! Edits of the current tables of one kind.
//!
//! An edit is defined over the table as fields and items, the form in which tables are read and written
//! (`TableHolding`), and not over a struct, whose ranges would have to be proved anew in each definition. The code
//! edits the structs (`Pat`, `Cat`, ..), and one clause each ties the two: `edit_pat` and its like.

ghost use Rattle.std.specs.Prelude.{◌≡◌, Option, IfOk, option_map};
ghost use Rattle.ts_table_rows.specs.TableValues.{TableHolding};

use crate::current_table::read_current;
use crate::edit::{Edited, TableEdit};
use crate::psi_table::PsiTable;
use crate::written_table::sections_or_same;
use std::alloc::{AllocError, Global};
use ts_section::TableRun;

/// An edit of each current table of one kind.
pub trait EditsTable {
    /// The kind of table.
    type Table: PsiTable;

    /// The result for a table; with `None` the table stays as it is.
    ghost edited: { Self → TableHolding → Option TableHolding };

    /// Edits a table.
    fn edited(&self, alloc: Global, table: Self::Table) -> Result<Option<Self::Table>, AllocError>
        ensures { IfOk result (λ new. option_map Self.Table.held new ≡ edited self.now (Self.Table.held table)) };
}

/// An edit of the tables of its kind that read and are current. The resulting table is written anew, and all other
/// tables are carried unchanged.
#[derive(Drop)]
pub struct Current<E: Drop> {
    pub edit: E,
}

impl<E: EditsTable + Drop> TableEdit for Current<E> {
    ghost use Rattle.plug_psi.specs.CurrentTables.{current_in};
    ghost use Rattle.plug_psi.specs.TableChange.{changed_current};

    ghost change = { λ s run. changed_current E.Table.page (E.edited s.edit) (current_in (E.Table.reads run)) };

    fn edit(&self, alloc: Global, run: &TableRun) -> Result<Edited, AllocError> {
        let Some(table) = read_current::<E::Table>(alloc, run)? else {
            return Ok(Edited::same());
        };
        let Some(edited) = self.edit.edited(alloc, table)? else {
            return Ok(Edited::same());
        };
        let edited = sections_or_same(edited.sections(alloc))?;
        Ok(edited)
    }
}
