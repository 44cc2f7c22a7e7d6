//! A NIT as a table of its kind (ETSI EN 300 468, 5.2.1).

use crate::psi_table::PsiTable;
use std::alloc::Global;
use ts_section::{Section, TableRun};
use ts_si::Nit;
use ts_table_rows::{TableFault, TableRefusal};

impl PsiTable for Nit {
    ghost use Rattle.ts_table_rows.specs.RunReading.{read_run};
    ghost use Rattle.ts_table_pages.specs.SiPages.{nit_page};
    ghost use Rattle.ts_si.specs.SiTables.{nit_held};

    ghost held = { λ table. nit_held table };

    ghost page = { nit_page };

    ghost reads = { λ run. read_run nit_page run };

    fn read(alloc: Global, run: &TableRun) -> Result<Nit, TableFault> {
        let table = Nit::read(alloc, run)?;
        Ok(table)
    }

    fn sections(&self, alloc: Global) -> Result<Vec<Section>, TableRefusal> {
        let sections = Nit::sections(self, alloc)?;
        Ok(sections)
    }

    fn is_current(&self) -> bool {
        self.current
    }
}
