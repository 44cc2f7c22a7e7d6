//! The edit of `pmt` for the tables of a PID.

ghost use Rattle.std.specs.Prelude.{◌≡◌, IfOk};
ghost use Rattle.plug_edit.specs.Changes.{change_pmt};
ghost use Rattle.plug_edit.specs.PmtSettings.{IsValidPmt};

use crate::pmt_conf::EditPmtConf;
use crate::pmt_edit::edit_pmt;
use plug_psi::{Current, Edited, EditsTable, TableEdit};
use service_edit::ServiceTableEdit;
use std::alloc::{AllocError, Global};
use ts_psi::Pmt;
use ts_section::TableRun;

/// The edit of `pmt` for a current PMT; with a service, that of another one stays as it is.
#[derive(Drop)]
pub struct PmtEdit {
    pub(crate) conf: EditPmtConf,
    ghost valid: { IsValidPmt conf },
}

impl EditsTable for PmtEdit {
    ghost use Rattle.plug_edit.specs.PmtEdit.{pmt_at};

    type Table = Pmt;

    ghost edited = { λ s table. pmt_at s.conf table };

    fn edited(&self, alloc: Global, table: Pmt) -> Result<Option<Pmt>, AllocError> {
        if !self.conf.place.edits(table.service_id) {
            return Ok(None);
        }
        let edited = edit_pmt(alloc, &self.conf, table)?;
        Ok(edited)
    }
}

/// The edit of `pmt` for the tables of a PID: its current PMTs are edited, and all other tables are carried unchanged.
#[derive(Drop)]
pub struct PmtTables {
    pub(crate) current: Current<PmtEdit>,
}

/// The edit of these settings, of which it keeps a copy.
pub(crate) fn new_tables(alloc: Global, conf: &EditPmtConf) -> Result<PmtTables, AllocError>
    requires { IsValidPmt conf.now }
    ensures { IfOk result (λ tables. tables.current.edit.conf ≡ conf.now) }
{
    let conf = conf.copy(alloc)?;
    Ok(PmtTables {
        current: Current {
            edit: PmtEdit { conf },
        },
    })
}

impl TableEdit for PmtTables {
    ghost change = { λ s run. change_pmt s.current.edit.conf run };

    fn edit(&self, alloc: Global, run: &TableRun) -> Result<Edited, AllocError> {
        let edited = self.current.edit(alloc, run)?;
        Ok(edited)
    }
}

impl ServiceTableEdit for PmtTables {
    fn copy(&self, alloc: Global) -> Result<PmtTables, AllocError> {
        let tables = new_tables(alloc, &self.current.edit.conf)?;
        Ok(tables)
    }
}
