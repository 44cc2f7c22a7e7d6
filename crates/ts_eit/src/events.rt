//! The events of an EIT (ETSI EN 300 468, 5.2.4).

ghost use Rattle.std.specs.Prelude.{◌<◌};

use crate::event_rows::event_fields;
use crate::start::Start;
use crate::times::{start_bits, time_bits};
use std::alloc::{AllocError, Global};
use ts_bits::DescriptorList;
use ts_fields::FieldValue;
use ts_table_rows::{Item, ItemList, TableItem};

/// An event of a service.
#[derive(Drop)]
pub struct Event {
    /// event_id.
    pub event_id: u16,
    /// start_time; `None` where it is undefined.
    pub start: Option<Start>,
    /// duration in seconds, 0 to 359,999: less than 100 hours.
    pub duration: u32,
    /// running_status, 0 to 7.
    pub running: u8,
    /// free_CA_mode: whether components of the event may be scrambled.
    pub free_ca: bool,
    /// The descriptors of the event.
    pub descriptors: DescriptorList,
    pub ghost duration_in_range: { duration < 360000 },
    pub ghost running_in_range: { running < 8 },
}

impl Item for Event {
    ghost use Rattle.ts_table_rows.specs.TableFitting.{item_fits};
    ghost use Rattle.ts_table_pages.specs.EitPages.{event_page};
    ghost use Rattle.ts_eit.specs.EitTables.{event_item};

    ghost as_item = { λ e. event_item e };

    ghost fits = { item_fits event_page };

    fn of(item: TableItem) -> Event {
        let (event_id, start, duration, running, free_ca) = event_fields(&item.values);
        Event {
            event_id,
            start,
            duration,
            running,
            free_ca,
            descriptors: item.descriptors,
        }
    }

    #[tactic(auto, unfolding(ts_fields::specs::Fitting::fits))]
    fn to_item(&self, alloc: Global) -> Result<TableItem, AllocError> {
        let descriptors = self.descriptors.copy()?;
        let values = vec![in alloc;
            FieldValue::Number(u64::from(self.event_id)),
            FieldValue::Number(start_bits(self.start)),
            FieldValue::Number(time_bits(self.duration)),
            FieldValue::Number(u64::from(self.running)),
            FieldValue::Number(u64::from(self.free_ca)),
        ]?;
        Ok(TableItem {
            values,
            descriptors,
        })
    }

    fn copy(&self) -> Result<Event, AllocError> {
        let descriptors = self.descriptors.copy()?;
        Ok(Event {
            event_id: self.event_id,
            start: self.start,
            duration: self.duration,
            running: self.running,
            free_ca: self.free_ca,
            descriptors,
        })
    }
}

/// Events in their order.
pub type EventList = ItemList<Event>;
