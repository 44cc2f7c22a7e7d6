//! Event information table (ETSI EN 300 468, 5.2.4).

ghost use Rattle.std.specs.Prelude.{◌≤◌, ◌<◌};

use crate::events::EventList;
use crate::heads::{fields_of, numbers_of, table_head};
use std::alloc::{AllocError, Global};
use ts_bits::DescriptorList;
use ts_fields::FieldValue;
use ts_section::{Section, TableRun};
use ts_table_pages::eit_layout;
use ts_table_rows::{Table, TableBody, TableFault, TableRefusal, read_table, write_table};

/// One section of an event information table, which is a part of a longer list of events.
#[derive(Drop)]
pub struct Eit {
    /// table_id, 0x4E to 0x6F: the events of this or another transport stream, present and following or of a
    /// schedule.
    pub table_id: u8,
    /// service_id.
    pub service_id: u16,
    /// version_number, 0 to 31.
    pub version: u8,
    /// current_next_indicator.
    pub current: bool,
    /// transport_stream_id.
    pub stream_id: u16,
    /// original_network_id.
    pub original_id: u16,
    /// section_number, 0 to `last`.
    pub number: u8,
    /// last_section_number.
    pub last: u8,
    /// segment_last_section_number.
    pub segment_last: u8,
    /// last_table_id.
    pub last_table_id: u8,
    /// The events.
    pub events: EventList,
    pub ghost first_id: { 0x4E ≤ table_id },
    pub ghost last_id: { table_id ≤ 0x6F },
    pub ghost version_in_range: { version < 32 },
    pub ghost number_in_range: { number ≤ last },
}

impl Eit {
    ghost use Rattle.std.specs.Prelude.{◌≡◌, IfOk, Ok, OnOk, map, true};
    ghost use Rattle.ts_fields.specs.Layout.{held};
    ghost use Rattle.ts_section.specs.SectionRun.{IsTableRun};
    ghost use Rattle.ts_table_rows.specs.RunReading.{Tells, read_run};
    ghost use Rattle.ts_table_rows.specs.TableFitting.{table_fits, values_fit};
    ghost use Rattle.ts_table_rows.specs.TableSections.{Writes, sections_of};
    ghost use Rattle.ts_table_rows.specs.TableValues.{table_held};
    ghost use Rattle.ts_table_pages.specs.EitPages.{eit_page};
    ghost use Rattle.ts_eit.specs.EitTables.{eit_held};

    /// The EIT of a table.
    #[tactic(auto, using(ts_table_rows::proofs::ListLemmas::none_held))]
    fn of(alloc: Global, table: Table) -> Result<Eit, AllocError>
        requires { table_fits eit_page (table_held table) ≡ true }
        ensures { IfOk result (λ e. eit_held e ≡ table_held table) }
    {
        let Table { head, body } = table;
        let (number, last) = numbers_of(head.numbers);
        let (stream_id, original_id, segment_last, last_table_id) = fields_of(&body.values);
        let events = EventList::read(alloc, body.items)?;
        Ok(Eit {
            table_id: head.table_id,
            service_id: head.extension,
            version: head.version,
            current: head.current,
            stream_id,
            original_id,
            number,
            last,
            segment_last,
            last_table_id,
            events,
        })
    }

    /// The fields outside the events.
    #[tactic(auto, unfolding(ts_fields::specs::Fitting::fits))]
    fn values(&self, alloc: Global) -> Result<Vec<FieldValue>, AllocError>
        ensures held { IfOk result (λ v. map held v.items ≡ (eit_held self.now).body.values) }
        ensures fit { OnOk result (values_fit eit_page (eit_held self.now).body.values ≡ true) }
    {
        let values = vec![in alloc;
            FieldValue::Number(u64::from(self.stream_id)),
            FieldValue::Number(u64::from(self.original_id)),
            FieldValue::Number(u64::from(self.segment_last)),
            FieldValue::Number(u64::from(self.last_table_id)),
        ]?;
        Ok(values)
    }

    /// The EIT as a table.
    fn table(&self, alloc: Global) -> Result<Table, AllocError>
        ensures held { IfOk result (λ t. table_held t ≡ eit_held self.now) }
        ensures fits { OnOk result (table_fits eit_page (eit_held self.now) ≡ true) }
    {
        let numbers = (self.number, self.last);
        let head = table_head(
            self.table_id,
            self.service_id,
            self.version,
            self.current,
            numbers,
        );
        let values = self.values(alloc)?;
        let items = self.events.write(alloc)?;
        let body = TableBody {
            values,
            descriptors: DescriptorList::of(Vec::new(alloc)),
            items,
        };
        Ok(Table { head, body })
    }

    /// The EIT of a run, or the first rule that the run breaks.
    pub fn read(alloc: Global, run: &TableRun) -> Result<Eit, TableFault>
        ensures { Tells eit_held result (read_run eit_page run.now) }
    {
        let table = read_table(alloc, eit_layout(), run)?;
        let eit = Eit::of(alloc, table)?;
        Ok(eit)
    }

    /// The one section of the EIT, with its own section numbers; `TooLarge` exactly where its section_length would be
    /// above 4093, unless memory runs out. It is a whole run, and reading it gives the EIT.
    pub fn sections(&self, alloc: Global) -> Result<Vec<Section>, TableRefusal>
        ensures written { Writes (λ v. v.items) result (sections_of eit_page (eit_held self.now)) }
        ensures whole { IfOk result (λ v. IsTableRun v.items) }
        ensures again { IfOk result (λ v. read_run eit_page v.items ≡ Ok (eit_held self.now)) }
    {
        let table = self.table(alloc)?;
        let sections = write_table(alloc, eit_layout(), &table)?;
        Ok(sections)
    }

    /// An equal EIT.
    pub fn copy(&self) -> Result<Eit, AllocError>
        ensures { IfOk result (λ e. e ≡ self.now) }
    {
        let events = self.events.copy()?;
        Ok(Eit {
            table_id: self.table_id,
            service_id: self.service_id,
            version: self.version,
            current: self.current,
            stream_id: self.stream_id,
            original_id: self.original_id,
            number: self.number,
            last: self.last,
            segment_last: self.segment_last,
            last_table_id: self.last_table_id,
            events,
        })
    }
}
