//! An SDT as a table of its kind (ETSI EN 300 468, 5.2.3).

use crate::psi_table::PsiTable;
use std::alloc::Global;
use ts_section::{Section, TableRun};
use ts_si::Sdt;
use ts_table_rows::{TableFault, TableRefusal};

impl PsiTable for Sdt {
    ghost use Rattle.ts_table_rows.specs.RunReading.{read_run};
    ghost use Rattle.ts_table_pages.specs.SiPages.{sdt_page};
    ghost use Rattle.ts_si.specs.SiTables.{sdt_held};

    ghost held = { λ table. sdt_held table };

    ghost page = { sdt_page };

    ghost reads = { λ run. read_run sdt_page run };

    fn read(alloc: Global, run: &TableRun) -> Result<Sdt, TableFault> {
        let table = Sdt::read(alloc, run)?;
        Ok(table)
    }

    fn sections(&self, alloc: Global) -> Result<Vec<Section>, TableRefusal> {
        let sections = Sdt::sections(self, alloc)?;
        Ok(sections)
    }

    fn is_current(&self) -> bool {
        self.current
    }
}
