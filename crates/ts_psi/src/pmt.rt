//! Program map table (ISO/IEC 13818-1, 2.4.4.8).

ghost use Rattle.std.specs.Prelude.{◌<◌};

use crate::pmt_values::{component_fields, pcr_of};
use std::alloc::{AllocError, Global};
use ts_bits::DescriptorList;
use ts_fields::FieldValue;
use ts_section::{Section, TableRun};
use ts_table_pages::pmt_layout;
use ts_table_rows::{
    Item, ItemList, Table, TableBody, TableFault, TableHead, TableItem, TableRefusal, read_table,
    write_table,
};

/// One elementary stream of a program.
#[derive(Drop)]
pub struct Component {
    /// stream_type, 0 to 255.
    pub stream_type: u8,
    /// elementary_PID, 0 to 8191.
    pub pid: u16,
    /// The descriptors of the stream.
    pub descriptors: DescriptorList,
    pub ghost in_range: { pid < 8192 },
}

impl Item for Component {
    ghost use Rattle.ts_table_rows.specs.TableFitting.{item_fits};
    ghost use Rattle.ts_table_pages.specs.PsiPages.{component_page};
    ghost use Rattle.ts_psi.specs.PsiTables.{component_item};

    ghost as_item = { λ c. component_item c };

    ghost fits = { item_fits component_page };

    fn of(item: TableItem) -> Component {
        let (stream_type, pid) = component_fields(&item.values);
        Component {
            stream_type,
            pid,
            descriptors: item.descriptors,
        }
    }

    #[tactic(auto, unfolding(ts_fields::specs::Fitting::fits))]
    fn to_item(&self, alloc: Global) -> Result<TableItem, AllocError> {
        let descriptors = self.descriptors.copy()?;
        let values = vec![in alloc;
            FieldValue::Number(u64::from(self.stream_type)),
            FieldValue::Number(u64::from(self.pid)),
        ]?;
        Ok(TableItem {
            values,
            descriptors,
        })
    }

    fn copy(&self) -> Result<Component, AllocError> {
        let descriptors = self.descriptors.copy()?;
        Ok(Component {
            stream_type: self.stream_type,
            pid: self.pid,
            descriptors,
        })
    }
}

/// Components in their order.
pub type ComponentList = ItemList<Component>;

/// A program map table.
#[derive(Drop)]
pub struct Pmt {
    /// version_number, 0 to 31.
    pub version: u8,
    /// current_next_indicator.
    pub current: bool,
    /// program_number.
    pub service_id: u16,
    /// PCR_PID, 0 to 8191; 8191 where there is no PCR.
    pub pcr_pid: u16,
    /// The descriptors of the program.
    pub descriptors: DescriptorList,
    /// The elementary streams.
    pub components: ComponentList,
    pub ghost version_in_range: { version < 32 },
    pub ghost pcr_in_range: { pcr_pid < 8192 },
}

impl Pmt {
    ghost use Rattle.std.specs.Prelude.{◌≡◌, IfOk, Ok, OnOk, true};
    ghost use Rattle.ts_section.specs.SectionRun.{IsTableRun};
    ghost use Rattle.ts_table_rows.specs.RunReading.{Tells, read_run};
    ghost use Rattle.ts_table_rows.specs.TableFitting.{table_fits};
    ghost use Rattle.ts_table_rows.specs.TableSections.{Writes, sections_of};
    ghost use Rattle.ts_table_rows.specs.TableValues.{table_held};
    ghost use Rattle.ts_table_pages.specs.PsiPages.{pmt_page};
    ghost use Rattle.ts_psi.specs.PsiTables.{pmt_held};

    /// The PMT of a table.
    #[tactic(auto, unfolding(ts_fields::specs::Fitting::fits))]
    fn of(alloc: Global, table: Table) -> Result<Pmt, AllocError>
        requires { table_fits pmt_page (table_held table) ≡ true }
        ensures { IfOk result (λ p. pmt_held p ≡ table_held table) }
    {
        let Table { head, body } = table;
        let TableBody {
            values,
            descriptors,
            items,
        } = body;
        let pcr_pid = pcr_of(&values);
        let components = ComponentList::read(alloc, items)?;
        Ok(Pmt {
            version: head.version,
            current: head.current,
            service_id: head.extension,
            pcr_pid,
            descriptors,
            components,
        })
    }

    /// The PMT as a table.
    fn table(&self, alloc: Global) -> Result<Table, AllocError>
        ensures held { IfOk result (λ t. table_held t ≡ pmt_held self.now) }
        ensures fits { OnOk result (table_fits pmt_page (pmt_held self.now) ≡ true) }
    {
        let head = TableHead {
            table_id: 0x02,
            extension: self.service_id,
            version: self.version,
            current: self.current,
            numbers: None,
        };
        let values = vec![in alloc; FieldValue::Number(u64::from(self.pcr_pid))]?;
        let descriptors = self.descriptors.copy()?;
        let items = self.components.write(alloc)?;
        let body = TableBody {
            values,
            descriptors,
            items,
        };
        Ok(Table { head, body })
    }

    /// The PMT of a run, or the first rule that the run breaks.
    pub fn read(alloc: Global, run: &TableRun) -> Result<Pmt, TableFault>
        ensures { Tells pmt_held result (read_run pmt_page run.now) }
    {
        let table = read_table(alloc, pmt_layout(), run)?;
        let pmt = Pmt::of(alloc, table)?;
        Ok(pmt)
    }

    /// The one section of the PMT; `TooLarge` exactly where its section_length would be above 1021, unless memory
    /// runs out. It is a whole run, and reading it gives the PMT.
    pub fn sections(&self, alloc: Global) -> Result<Vec<Section>, TableRefusal>
        ensures written { Writes (λ v. v.items) result (sections_of pmt_page (pmt_held self.now)) }
        ensures whole { IfOk result (λ v. IsTableRun v.items) }
        ensures again { IfOk result (λ v. read_run pmt_page v.items ≡ Ok (pmt_held self.now)) }
    {
        let table = self.table(alloc)?;
        let sections = write_table(alloc, pmt_layout(), &table)?;
        Ok(sections)
    }

    /// An equal PMT.
    pub fn copy(&self) -> Result<Pmt, AllocError>
        ensures { IfOk result (λ p. p ≡ self.now) }
    {
        let descriptors = self.descriptors.copy()?;
        let components = self.components.copy()?;
        Ok(Pmt {
            version: self.version,
            current: self.current,
            service_id: self.service_id,
            pcr_pid: self.pcr_pid,
            descriptors,
            components,
        })
    }
}
