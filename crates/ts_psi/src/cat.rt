//! Conditional access table (ISO/IEC 13818-1, 2.4.4.6).

ghost use Rattle.std.specs.Prelude.{◌<◌};

use std::alloc::{AllocError, Global};
use ts_bits::DescriptorList;
use ts_section::{Section, TableRun};
use ts_table_pages::cat_layout;
use ts_table_rows::{
    Table, TableBody, TableFault, TableHead, TableRefusal, read_table, write_table,
};

/// A conditional access table.
#[derive(Drop)]
pub struct Cat {
    /// version_number, 0 to 31.
    pub version: u8,
    /// current_next_indicator.
    pub current: bool,
    /// The descriptors.
    pub descriptors: DescriptorList,
    pub ghost version_in_range: { version < 32 },
}

impl Cat {
    ghost use Rattle.std.specs.Prelude.{◌≡◌, IfOk, Ok, OnOk, true};
    ghost use Rattle.ts_section.specs.SectionRun.{IsTableRun};
    ghost use Rattle.ts_table_rows.specs.RunReading.{Tells};
    ghost use Rattle.ts_table_rows.specs.TableFitting.{table_fits};
    ghost use Rattle.ts_table_rows.specs.TableSections.{Writes, sections_of};
    ghost use Rattle.ts_table_rows.specs.TableValues.{table_held};
    ghost use Rattle.ts_table_pages.specs.PsiPages.{cat_page};
    ghost use Rattle.ts_psi.specs.CatTables.{cat_held, cat_table, read_cat};

    /// The CAT of a table. Its table_id_extension is reserved, and any value of it is read.
    fn of(table: Table) -> Cat
        requires { table_fits cat_page (table_held table) ≡ true }
        ensures { cat_held result ≡ cat_table (table_held table) }
    {
        let Table { head, body } = table;
        Cat {
            version: head.version,
            current: head.current,
            descriptors: body.descriptors,
        }
    }

    /// The CAT as a table.
    fn table(&self, alloc: Global) -> Result<Table, AllocError>
        ensures held { IfOk result (λ t. table_held t ≡ cat_held self.now) }
        ensures fits { OnOk result (table_fits cat_page (cat_held self.now) ≡ true) }
    {
        let head = TableHead {
            table_id: 0x01,
            extension: 0xFFFF,
            version: self.version,
            current: self.current,
            numbers: None,
        };
        let descriptors = self.descriptors.copy()?;
        let body = TableBody {
            values: Vec::new(alloc),
            descriptors,
            items: Vec::new(alloc),
        };
        Ok(Table { head, body })
    }

    /// The CAT of a run, or the first rule that the run breaks.
    pub fn read(alloc: Global, run: &TableRun) -> Result<Cat, TableFault>
        ensures { Tells cat_held result (read_cat run.now) }
    {
        let table = read_table(alloc, cat_layout(), run)?;
        Ok(Cat::of(table))
    }

    /// The sections of the CAT, filled in order. `TooLarge` is returned where one descriptor alone would need a
    /// section_length above 1021, `TooMany` where more than 256 sections would be needed. The sections are a whole
    /// run, and reading them gives the CAT.
    pub fn sections(&self, alloc: Global) -> Result<Vec<Section>, TableRefusal>
        ensures written { Writes (λ v. v.items) result (sections_of cat_page (cat_held self.now)) }
        ensures whole { IfOk result (λ v. IsTableRun v.items) }
        ensures again { IfOk result (λ v. read_cat v.items ≡ Ok (cat_held self.now)) }
    {
        let table = self.table(alloc)?;
        let sections = write_table(alloc, cat_layout(), &table)?;
        Ok(sections)
    }

    /// An equal CAT.
    pub fn copy(&self) -> Result<Cat, AllocError>
        ensures { IfOk result (λ c. c ≡ self.now) }
    {
        let descriptors = self.descriptors.copy()?;
        Ok(Cat {
            version: self.version,
            current: self.current,
            descriptors,
        })
    }
}
