//! Tables that are read only if they are current.

ghost use Rattle.std.specs.Prelude.{◌≡◌, IfOk, option_map};
ghost use Rattle.plug_psi.specs.CurrentTables.{current_in};

use crate::psi_table::PsiTable;
use std::alloc::{AllocError, Global};
use ts_section::TableRun;
use ts_table_rows::TableFault;

/// The table of a run, if it reads as one of this kind and is current.
pub fn read_current<T: PsiTable>(alloc: Global, run: &TableRun) -> Result<Option<T>, AllocError>
    ensures { IfOk result (λ table. option_map T.held table ≡ current_in (T.reads run.now)) }
{
    match T::read(alloc, run) {
        Ok(table) => {
            if table.is_current() {
                Ok(Some(table))
            } else {
                Ok(None)
            }
        }
        Err(TableFault::Broken { .. }) => Ok(None),
        Err(TableFault::NoMemory) => Err(AllocError),
    }
}
