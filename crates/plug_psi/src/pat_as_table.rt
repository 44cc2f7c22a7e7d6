//! A PAT as a table of its kind (ISO/IEC 13818-1, 2.4.4.3).

use crate::psi_table::PsiTable;
use std::alloc::Global;
use ts_psi::Pat;
use ts_section::{Section, TableRun};
use ts_table_rows::{TableFault, TableRefusal};

impl PsiTable for Pat {
    ghost use Rattle.ts_table_pages.specs.PsiPages.{pat_page};
    ghost use Rattle.ts_psi.specs.PatTables.{pat_held, read_pat};

    ghost held = { λ table. pat_held table };

    ghost page = { pat_page };

    ghost reads = { λ run. read_pat run };

    fn read(alloc: Global, run: &TableRun) -> Result<Pat, TableFault> {
        let table = Pat::read(alloc, run)?;
        Ok(table)
    }

    fn sections(&self, alloc: Global) -> Result<Vec<Section>, TableRefusal> {
        let sections = Pat::sections(self, alloc)?;
        Ok(sections)
    }

    fn is_current(&self) -> bool {
        self.current
    }
}
