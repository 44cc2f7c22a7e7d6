//! Bouquet association table (ETSI EN 300 468, 5.2.2).

ghost use Rattle.std.specs.Prelude.{◌<◌};

use crate::heads::table_head;
use crate::stream_body::{parts_of, stream_body};
use crate::streams::NitStreamList;
use std::alloc::{AllocError, Global};
use ts_bits::DescriptorList;
use ts_section::{Section, TableRun};
use ts_table_pages::bat_layout;
use ts_table_rows::{Table, TableFault, TableRefusal, read_table, write_table};

/// A bouquet association table.
#[derive(Drop)]
pub struct Bat {
    /// version_number, 0 to 31.
    pub version: u8,
    /// current_next_indicator.
    pub current: bool,
    /// bouquet_id.
    pub bouquet_id: u16,
    /// The descriptors of the bouquet.
    pub descriptors: DescriptorList,
    /// The transport streams.
    pub streams: NitStreamList,
    pub ghost version_in_range: { version < 32 },
}

impl Bat {
    ghost use Rattle.std.specs.Prelude.{◌≡◌, IfOk, Ok, OnOk, true};
    ghost use Rattle.ts_section.specs.SectionRun.{IsTableRun};
    ghost use Rattle.ts_table_rows.specs.RunReading.{Tells, read_run};
    ghost use Rattle.ts_table_rows.specs.TableFitting.{table_fits};
    ghost use Rattle.ts_table_rows.specs.TableSections.{Writes, sections_of};
    ghost use Rattle.ts_table_rows.specs.TableValues.{table_held};
    ghost use Rattle.ts_table_pages.specs.SiPages.{bat_page};
    ghost use Rattle.ts_si.specs.SiTables.{bat_held};

    /// The BAT of a table.
    fn of(alloc: Global, table: Table) -> Result<Bat, AllocError>
        requires { table_fits bat_page (table_held table) ≡ true }
        ensures { IfOk result (λ b. bat_held b ≡ table_held table) }
    {
        let Table { head, body } = table;
        let (descriptors, streams) = parts_of(alloc, body)?;
        Ok(Bat {
            version: head.version,
            current: head.current,
            bouquet_id: head.extension,
            descriptors,
            streams,
        })
    }

    /// The BAT as a table.
    fn table(&self, alloc: Global) -> Result<Table, AllocError>
        ensures held { IfOk result (λ t. table_held t ≡ bat_held self.now) }
        ensures fits { OnOk result (table_fits bat_page (bat_held self.now) ≡ true) }
    {
        let table_id = 0x4A;
        let head = table_head(table_id, self.bouquet_id, self.version, self.current);
        let body = stream_body(alloc, &self.descriptors, &self.streams)?;
        Ok(Table { head, body })
    }

    /// The BAT of a run, or the first rule that the run breaks.
    pub fn read(alloc: Global, run: &TableRun) -> Result<Bat, TableFault>
        ensures { Tells bat_held result (read_run bat_page run.now) }
    {
        let table = read_table(alloc, bat_layout(), run)?;
        let bat = Bat::of(alloc, table)?;
        Ok(bat)
    }

    /// The sections of the BAT, filled in order, the descriptors of the bouquet before the first transport stream.
    /// `TooLarge` is returned where one of these descriptors or one transport stream alone would need a
    /// section_length above 1021, `TooMany` where more than 256 sections would be needed. The sections are a whole
    /// run, and reading it gives the BAT.
    pub fn sections(&self, alloc: Global) -> Result<Vec<Section>, TableRefusal>
        ensures written { Writes (λ v. v.items) result (sections_of bat_page (bat_held self.now)) }
        ensures whole { IfOk result (λ v. IsTableRun v.items) }
        ensures again { IfOk result (λ v. read_run bat_page v.items ≡ Ok (bat_held self.now)) }
    {
        let table = self.table(alloc)?;
        let sections = write_table(alloc, bat_layout(), &table)?;
        Ok(sections)
    }

    /// An equal BAT.
    pub fn copy(&self) -> Result<Bat, AllocError>
        ensures { IfOk result (λ b. b ≡ self.now) }
    {
        let descriptors = self.descriptors.copy()?;
        let streams = self.streams.copy()?;
        Ok(Bat {
            version: self.version,
            current: self.current,
            bouquet_id: self.bouquet_id,
            descriptors,
            streams,
        })
    }
}
