//! A CAT as a table of its kind (ISO/IEC 13818-1, 2.4.4.6).

use crate::psi_table::PsiTable;
use std::alloc::Global;
use ts_psi::Cat;
use ts_section::{Section, TableRun};
use ts_table_rows::{TableFault, TableRefusal};

impl PsiTable for Cat {
    ghost use Rattle.ts_table_pages.specs.PsiPages.{cat_page};
    ghost use Rattle.ts_psi.specs.CatTables.{cat_held, read_cat};

    ghost held = { λ table. cat_held table };

    ghost page = { cat_page };

    ghost reads = { λ run. read_cat run };

    fn read(alloc: Global, run: &TableRun) -> Result<Cat, TableFault> {
        let table = Cat::read(alloc, run)?;
        Ok(table)
    }

    fn sections(&self, alloc: Global) -> Result<Vec<Section>, TableRefusal> {
        let sections = Cat::sections(self, alloc)?;
        Ok(sections)
    }

    fn is_current(&self) -> bool {
        self.current
    }
}
