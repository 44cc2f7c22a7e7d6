//! A PMT as a table of its kind (ISO/IEC 13818-1, 2.4.4.8).

use crate::psi_table::PsiTable;
use std::alloc::Global;
use ts_psi::Pmt;
use ts_section::{Section, TableRun};
use ts_table_rows::{TableFault, TableRefusal};

impl PsiTable for Pmt {
    ghost use Rattle.ts_table_rows.specs.RunReading.{read_run};
    ghost use Rattle.ts_table_pages.specs.PsiPages.{pmt_page};
    ghost use Rattle.ts_psi.specs.PsiTables.{pmt_held};

    ghost held = { λ table. pmt_held table };

    ghost page = { pmt_page };

    ghost reads = { λ run. read_run pmt_page run };

    fn read(alloc: Global, run: &TableRun) -> Result<Pmt, TableFault> {
        let table = Pmt::read(alloc, run)?;
        Ok(table)
    }

    fn sections(&self, alloc: Global) -> Result<Vec<Section>, TableRefusal> {
        let sections = Pmt::sections(self, alloc)?;
        Ok(sections)
    }

    fn is_current(&self) -> bool {
        self.current
    }
}
