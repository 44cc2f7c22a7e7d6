//! Network information table (ETSI EN 300 468, 5.2.1).

ghost use Rattle.std.specs.Prelude.{◌<◌};

use crate::heads::{is_actual_nit, nit_id, table_head};
use crate::stream_body::{parts_of, stream_body};
use crate::streams::NitStreamList;
use std::alloc::{AllocError, Global};
use ts_bits::DescriptorList;
use ts_section::{Section, TableRun};
use ts_table_pages::nit_layout;
use ts_table_rows::{Table, TableFault, TableRefusal, read_table, write_table};

/// A network information table.
#[derive(Drop)]
pub struct Nit {
    /// Whether the table is that of the actual network, to which the stream belongs: table_id 0x40, else 0x41.
    pub actual: bool,
    /// version_number, 0 to 31.
    pub version: u8,
    /// current_next_indicator.
    pub current: bool,
    /// network_id.
    pub network_id: u16,
    /// The descriptors of the network.
    pub descriptors: DescriptorList,
    /// The transport streams.
    pub streams: NitStreamList,
    pub ghost version_in_range: { version < 32 },
}

impl Nit {
    ghost use Rattle.std.specs.Prelude.{◌≡◌, IfOk, Ok, OnOk, true};
    ghost use Rattle.ts_section.specs.SectionRun.{IsTableRun};
    ghost use Rattle.ts_table_rows.specs.RunReading.{Tells, read_run};
    ghost use Rattle.ts_table_rows.specs.TableFitting.{table_fits};
    ghost use Rattle.ts_table_rows.specs.TableSections.{Writes, sections_of};
    ghost use Rattle.ts_table_rows.specs.TableValues.{table_held};
    ghost use Rattle.ts_table_pages.specs.SiPages.{nit_page};
    ghost use Rattle.ts_si.specs.SiTables.{nit_held};

    /// The NIT of a table.
    fn of(alloc: Global, table: Table) -> Result<Nit, AllocError>
        requires { table_fits nit_page (table_held table) ≡ true }
        ensures { IfOk result (λ n. nit_held n ≡ table_held table) }
    {
        let Table { head, body } = table;
        let actual = is_actual_nit(head.table_id);
        let (descriptors, streams) = parts_of(alloc, body)?;
        Ok(Nit {
            actual,
            version: head.version,
            current: head.current,
            network_id: head.extension,
            descriptors,
            streams,
        })
    }

    /// The NIT as a table.
    fn table(&self, alloc: Global) -> Result<Table, AllocError>
        ensures held { IfOk result (λ t. table_held t ≡ nit_held self.now) }
        ensures fits { OnOk result (table_fits nit_page (nit_held self.now) ≡ true) }
    {
        let table_id = nit_id(self.actual);
        let head = table_head(table_id, self.network_id, self.version, self.current);
        let body = stream_body(alloc, &self.descriptors, &self.streams)?;
        Ok(Table { head, body })
    }

    /// The NIT of a run, or the first rule that the run breaks.
    pub fn read(alloc: Global, run: &TableRun) -> Result<Nit, TableFault>
        ensures { Tells nit_held result (read_run nit_page run.now) }
    {
        let table = read_table(alloc, nit_layout(), run)?;
        let nit = Nit::of(alloc, table)?;
        Ok(nit)
    }

    /// The sections of the NIT, filled in order, the descriptors of the network before the first transport stream.
    /// `TooLarge` is returned where one of these descriptors or one transport stream alone would need a
    /// section_length above 1021, `TooMany` where more than 256 sections would be needed. The sections are a whole
    /// run, and reading it gives the NIT.
    pub fn sections(&self, alloc: Global) -> Result<Vec<Section>, TableRefusal>
        ensures written { Writes (λ v. v.items) result (sections_of nit_page (nit_held self.now)) }
        ensures whole { IfOk result (λ v. IsTableRun v.items) }
        ensures again { IfOk result (λ v. read_run nit_page v.items ≡ Ok (nit_held self.now)) }
    {
        let table = self.table(alloc)?;
        let sections = write_table(alloc, nit_layout(), &table)?;
        Ok(sections)
    }

    /// An equal NIT.
    pub fn copy(&self) -> Result<Nit, AllocError>
        ensures { IfOk result (λ n. n ≡ self.now) }
    {
        let descriptors = self.descriptors.copy()?;
        let streams = self.streams.copy()?;
        Ok(Nit {
            actual: self.actual,
            version: self.version,
            current: self.current,
            network_id: self.network_id,
            descriptors,
            streams,
        })
    }
}
