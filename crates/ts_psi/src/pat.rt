//! Program association table (ISO/IEC 13818-1, 2.4.4.3).

ghost use Rattle.std.specs.Prelude.{◌<◌};
ghost use Rattle.std.specs.Option.{ForSome};

use crate::entries::{entry, entry_of, network_of, network_rows, pat_head, services_of};
use std::alloc::{AllocError, Global};
use ts_bits::DescriptorList;
use ts_section::{Section, TableRun};
use ts_table_pages::pat_layout;
use ts_table_rows::{
    Item, ItemList, Table, TableBody, TableFault, TableItem, TableRefusal, read_table, write_table,
};

/// A service, and the PID of its PMT.
#[derive(Clone, Copy)]
pub struct PatService {
    /// program_number, 1 to 65535.
    pub service_id: u16,
    /// program_map_PID, 0 to 8191.
    pub pid: u16,
    pub ghost named: { 0 < service_id },
    pub ghost in_range: { pid < 8192 },
}

impl Item for PatService {
    ghost use Rattle.ts_psi.specs.PatTables.{service_item, service_serves};

    ghost as_item = { λ s. service_item s };

    ghost fits = { service_serves };

    fn of(item: TableItem) -> PatService {
        let (service_id, pid) = entry_of(&item);
        PatService { service_id, pid }
    }

    fn to_item(&self, alloc: Global) -> Result<TableItem, AllocError> {
        let service_id = self.service_id;
        let pid = self.pid;
        let item = entry(alloc, service_id, pid)?;
        Ok(item)
    }

    fn copy(&self) -> Result<PatService, AllocError> {
        Ok(*self)
    }
}

/// Services in their order.
pub type PatServiceList = ItemList<PatService>;

/// A program association table.
#[derive(Drop)]
pub struct Pat {
    /// version_number, 0 to 31.
    pub version: u8,
    /// current_next_indicator.
    pub current: bool,
    /// transport_stream_id.
    pub stream_id: u16,
    /// The network PID, that of program_number 0, 0 to 8191; `None` where there is no such entry.
    pub network_pid: Option<u16>,
    /// The services.
    pub services: PatServiceList,
    pub ghost version_in_range: { version < 32 },
    pub ghost network_in_range: { ForSome network_pid (λ pid. pid < 8192) },
}

impl Pat {
    ghost use Rattle.std.specs.Prelude.{◌≡◌, IfOk, Ok, OnOk, true};
    ghost use Rattle.ts_section.specs.SectionRun.{IsTableRun};
    ghost use Rattle.ts_table_rows.specs.RunReading.{Tells};
    ghost use Rattle.ts_table_rows.specs.TableFitting.{table_fits};
    ghost use Rattle.ts_table_rows.specs.TableSections.{Writes, sections_of};
    ghost use Rattle.ts_table_rows.specs.TableValues.{table_held};
    ghost use Rattle.ts_table_pages.specs.PsiPages.{pat_page};
    ghost use Rattle.ts_psi.specs.PatTables.{pat_held, pat_table, read_pat};

    /// The PAT of a table.
    fn of(alloc: Global, table: Table) -> Result<Pat, AllocError>
        requires { table_fits pat_page (table_held table) ≡ true }
        ensures { IfOk result (λ p. pat_held p ≡ pat_table (table_held table)) }
    {
        let Table { head, body } = table;
        let network_pid = network_of(&body.items);
        let services = services_of(alloc, body.items)?;
        Ok(Pat {
            version: head.version,
            current: head.current,
            stream_id: head.extension,
            network_pid,
            services,
        })
    }

    /// The PAT as a table.
    fn table(&self, alloc: Global) -> Result<Table, AllocError>
        ensures held { IfOk result (λ t. table_held t ≡ pat_held self.now) }
        ensures fits { OnOk result (table_fits pat_page (pat_held self.now) ≡ true) }
        ensures ordered { OnOk result (pat_table (pat_held self.now) ≡ pat_held self.now) }
    {
        let head = pat_head(self.stream_id, self.version, self.current);
        let mut items = network_rows(alloc, self.network_pid)?;
        let mut services = self.services.write(alloc)?;
        items.append(&mut services)?;
        let body = TableBody {
            values: Vec::new(alloc),
            descriptors: DescriptorList::of(Vec::new(alloc)),
            items,
        };
        Ok(Table { head, body })
    }

    /// The PAT of a run, or the first rule that the run breaks.
    pub fn read(alloc: Global, run: &TableRun) -> Result<Pat, TableFault>
        ensures { Tells pat_held result (read_pat run.now) }
    {
        let table = read_table(alloc, pat_layout(), run)?;
        let pat = Pat::of(alloc, table)?;
        Ok(pat)
    }

    /// The sections of the PAT, filled in order, the network entry first. `TooMany` is returned where more than 256
    /// sections would be needed. The sections are a whole run, and reading them gives the PAT.
    pub fn sections(&self, alloc: Global) -> Result<Vec<Section>, TableRefusal>
        ensures written { Writes (λ v. v.items) result (sections_of pat_page (pat_held self.now)) }
        ensures whole { IfOk result (λ v. IsTableRun v.items) }
        ensures again { IfOk result (λ v. read_pat v.items ≡ Ok (pat_held self.now)) }
    {
        let table = self.table(alloc)?;
        let sections = write_table(alloc, pat_layout(), &table)?;
        Ok(sections)
    }

    /// An equal PAT.
    pub fn copy(&self) -> Result<Pat, AllocError>
        ensures { IfOk result (λ p. p ≡ self.now) }
    {
        let services = self.services.copy()?;
        Ok(Pat {
            version: self.version,
            current: self.current,
            stream_id: self.stream_id,
            network_pid: self.network_pid,
            services,
        })
    }
}
