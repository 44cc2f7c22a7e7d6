//! The edit of a service's PMTs if it has another number (ISO/IEC 13818-1, 2.4.4.8).

ghost use Rattle.std.specs.Prelude.{◌≡◌, option_map};
ghost use Rattle.ts_psi.specs.PsiTables.{pmt_held};
ghost use Rattle.plug_rename.specs.Renaming;

use plug_psi::{Edited, SeededEdit, TableEdit, read_current, sections_or_same};
use std::alloc::{AllocError, Global};
use ts_psi::Pmt;
use ts_section::TableRun;

/// Gives each current PMT of a service that reads another program_number.
#[derive(Clone, Copy)]
pub(crate) struct PmtNumber {
    pub(crate) service: u16,
    pub(crate) id: Option<u16>,
}

impl TableEdit for PmtNumber {
    ghost use Rattle.plug_rename.specs.Renaming.{pmt_change};

    ghost change = { λ s run. pmt_change s.service s.id run };

    fn edit(&self, alloc: Global, run: &TableRun) -> Result<Edited, AllocError> {
        let Some(pmt) = read_current::<Pmt>(alloc, run)? else {
            return Ok(Edited::same());
        };
        let Some(edited) = pmt_as(*self, pmt) else {
            return Ok(Edited::same());
        };
        sections_or_same(edited.sections(alloc))
    }
}

impl SeededEdit for PmtNumber {
    ghost use Rattle.plug_rename.specs.Renaming.{pmt_change};

    type Seed = PmtNumber;

    ghost change_on = { λ seed pid run. pmt_change seed.service seed.id run };

    fn on(_alloc: Global, seed: &PmtNumber, _pid: u16) -> Result<PmtNumber, AllocError> {
        Ok(*seed)
    }
}

/// A PMT under another number, if it is that of the service.
fn pmt_as(edit: PmtNumber, pmt: Pmt) -> Option<Pmt>
    ensures { option_map pmt_held result ≡ Renaming.pmt_as edit.service edit.id (pmt_held pmt) }
{
    if pmt.service_id != edit.service {
        return None;
    }
    let mut pmt = pmt;
    pmt.service_id = edit.id.unwrap_or(edit.service);
    Some(pmt)
}
