//! Service description table (ETSI EN 300 468, 5.2.3).

ghost use Rattle.std.specs.Prelude.{◌<◌};

use crate::heads::{is_actual_sdt, original_of, sdt_id, table_head};
use crate::services::SdtServiceList;
use std::alloc::{AllocError, Global};
use ts_bits::DescriptorList;
use ts_fields::FieldValue;
use ts_section::{Section, TableRun};
use ts_table_pages::sdt_layout;
use ts_table_rows::{Table, TableBody, TableFault, TableRefusal, read_table, write_table};

/// A service description table.
#[derive(Drop)]
pub struct Sdt {
    /// Whether the table is that of the actual transport stream, in which it stands: table_id 0x42, else 0x46.
    pub actual: bool,
    /// version_number, 0 to 31.
    pub version: u8,
    /// current_next_indicator.
    pub current: bool,
    /// transport_stream_id.
    pub stream_id: u16,
    /// original_network_id, the same in all sections.
    pub original_id: u16,
    /// The services.
    pub services: SdtServiceList,
    pub ghost version_in_range: { version < 32 },
}

impl Sdt {
    ghost use Rattle.std.specs.Prelude.{◌≡◌, IfOk, Ok, OnOk, true};
    ghost use Rattle.ts_section.specs.SectionRun.{IsTableRun};
    ghost use Rattle.ts_table_rows.specs.RunReading.{Tells, read_run};
    ghost use Rattle.ts_table_rows.specs.TableFitting.{table_fits};
    ghost use Rattle.ts_table_rows.specs.TableSections.{Writes, sections_of};
    ghost use Rattle.ts_table_rows.specs.TableValues.{table_held};
    ghost use Rattle.ts_table_pages.specs.SiPages.{sdt_page};
    ghost use Rattle.ts_si.specs.SiTables.{sdt_held};

    /// The SDT of a table.
    fn of(alloc: Global, table: Table) -> Result<Sdt, AllocError>
        requires { table_fits sdt_page (table_held table) ≡ true }
        ensures { IfOk result (λ s. sdt_held s ≡ table_held table) }
    {
        let Table { head, body } = table;
        let TableBody {
            values,
            descriptors: _none,
            items,
        } = body;
        let actual = is_actual_sdt(head.table_id);
        let original_id = original_of(&values);
        let services = SdtServiceList::read(alloc, items)?;
        Ok(Sdt {
            actual,
            version: head.version,
            current: head.current,
            stream_id: head.extension,
            original_id,
            services,
        })
    }

    /// The SDT as a table.
    fn table(&self, alloc: Global) -> Result<Table, AllocError>
        ensures held { IfOk result (λ t. table_held t ≡ sdt_held self.now) }
        ensures fits { OnOk result (table_fits sdt_page (sdt_held self.now) ≡ true) }
    {
        let table_id = sdt_id(self.actual);
        let head = table_head(table_id, self.stream_id, self.version, self.current);
        let values = vec![in alloc; FieldValue::Number(u64::from(self.original_id))]?;
        let items = self.services.write(alloc)?;
        let body = TableBody {
            values,
            descriptors: DescriptorList::of(Vec::new(alloc)),
            items,
        };
        Ok(Table { head, body })
    }

    /// The SDT of a run, or the first rule that the run breaks.
    pub fn read(alloc: Global, run: &TableRun) -> Result<Sdt, TableFault>
        ensures { Tells sdt_held result (read_run sdt_page run.now) }
    {
        let table = read_table(alloc, sdt_layout(), run)?;
        let sdt = Sdt::of(alloc, table)?;
        Ok(sdt)
    }

    /// The sections of the SDT, filled in order. `TooLarge` is returned where one service alone would need a
    /// section_length above 1021, `TooMany` where more than 256 sections would be needed. The sections are a whole
    /// run, and reading it gives the SDT.
    pub fn sections(&self, alloc: Global) -> Result<Vec<Section>, TableRefusal>
        ensures written { Writes (λ v. v.items) result (sections_of sdt_page (sdt_held self.now)) }
        ensures whole { IfOk result (λ v. IsTableRun v.items) }
        ensures again { IfOk result (λ v. read_run sdt_page v.items ≡ Ok (sdt_held self.now)) }
    {
        let table = self.table(alloc)?;
        let sections = write_table(alloc, sdt_layout(), &table)?;
        Ok(sections)
    }

    /// An equal SDT.
    pub fn copy(&self) -> Result<Sdt, AllocError>
        ensures { IfOk result (λ s. s ≡ self.now) }
    {
        let services = self.services.copy()?;
        Ok(Sdt {
            actual: self.actual,
            version: self.version,
            current: self.current,
            stream_id: self.stream_id,
            original_id: self.original_id,
            services,
        })
    }
}
