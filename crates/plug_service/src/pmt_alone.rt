//! The edit of the tables on the PID of a PMT if services there are kept (ISO/IEC 13818-1, 2.4.4.8).

use crate::present::Present;
use plug_psi::{Edited, TableEdit, read_current};
use std::alloc::{AllocError, Global};
use ts_psi::Pmt;
use ts_section::TableRun;
use varied_edits::EditFrom;

/// Carries the current PMTs of services as they are, if they read, and no other table.
#[derive(Drop)]
pub(crate) struct PmtAlone {
    pub(crate) present: Present,
}

impl TableEdit for PmtAlone {
    ghost use Rattle.plug_service.specs.ServiceEdits.{pmt_by};

    ghost change = { λ s run. pmt_by s.present run };

    fn edit(&self, alloc: Global, run: &TableRun) -> Result<Edited, AllocError> {
        let Some(pmt) = read_current::<Pmt>(alloc, run)? else {
            return Ok(Edited::away());
        };
        if !self.present.services.has(pmt.service_id) {
            return Ok(Edited::away());
        }
        Ok(Edited::same())
    }
}

impl EditFrom for PmtAlone {
    ghost use Rattle.plug_service.specs.ServiceEdits.{pmt_by};

    type Source = Present;

    ghost made_from = { λ present run. pmt_by present run };

    fn is_from(&self, present: &Present) -> bool {
        self.present.is_same(present)
    }

    fn from_source(alloc: Global, present: &Present) -> Result<PmtAlone, AllocError> {
        let present = present.copy(alloc)?;
        Ok(PmtAlone { present })
    }
}
