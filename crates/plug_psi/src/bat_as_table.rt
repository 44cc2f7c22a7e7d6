//! A BAT as a table of its kind (ETSI EN 300 468, 5.2.2).

use crate::psi_table::PsiTable;
use std::alloc::Global;
use ts_section::{Section, TableRun};
use ts_si::Bat;
use ts_table_rows::{TableFault, TableRefusal};

impl PsiTable for Bat {
    ghost use Rattle.ts_table_rows.specs.RunReading.{read_run};
    ghost use Rattle.ts_table_pages.specs.SiPages.{bat_page};
    ghost use Rattle.ts_si.specs.SiTables.{bat_held};

    ghost held = { λ table. bat_held table };

    ghost page = { bat_page };

    ghost reads = { λ run. read_run bat_page run };

    fn read(alloc: Global, run: &TableRun) -> Result<Bat, TableFault> {
        let table = Bat::read(alloc, run)?;
        Ok(table)
    }

    fn sections(&self, alloc: Global) -> Result<Vec<Section>, TableRefusal> {
        let sections = Bat::sections(self, alloc)?;
        Ok(sections)
    }

    fn is_current(&self) -> bool {
        self.current
    }
}
