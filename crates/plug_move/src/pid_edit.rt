//! The edit of the tables on a PID.

ghost use Rattle.std.specs.Prelude.{◌≡◌, IfOk};

use crate::cat_pids::edit_cat;
use crate::move_table::MoveTable;
use crate::pat_pids::edit_pat;
use crate::pmt_pids::edit_pmt;
use plug_psi::{Edited, SeededEdit, TableEdit};
use std::alloc::{AllocError, Global};
use std::sync::Arc;
use ts_section::TableRun;

/// The edit of the tables on a PID, which maps the PIDs that they name: of PATs on PID 0, of CATs on PID 1, and of PMTs
/// on any other.
#[derive(Drop)]
pub(crate) struct PidsOnTables {
    pub(crate) table: Arc<MoveTable>,
    pub(crate) pid: u16,
}

impl TableEdit for PidsOnTables {
    ghost use Rattle.plug_move.specs.PidEdit.{edit_change};

    ghost change = { λ s. edit_change s };

    fn edit(&self, alloc: Global, run: &TableRun) -> Result<Edited, AllocError> {
        match self.pid {
            0 => edit_pat(alloc, &self.table, run),
            1 => edit_cat(alloc, &self.table, run),
            _ => edit_pmt(alloc, &self.table, run),
        }
    }
}

impl SeededEdit for PidsOnTables {
    ghost use Rattle.std.specs.Arc.{arc_value};
    ghost use Rattle.plug_move.specs.MappedTables.{change_on};

    type Seed = Arc<MoveTable>;

    ghost change_on = { λ seed pid. change_on (arc_value seed).0 pid };

    fn on(_alloc: Global, seed: &Arc<MoveTable>, pid: u16) -> Result<PidsOnTables, AllocError> {
        let table = Arc::try_clone(seed)?;
        Ok(PidsOnTables { table, pid })
    }
}
