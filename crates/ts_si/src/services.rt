//! The services of an SDT (ETSI EN 300 468, 5.2.3).

ghost use Rattle.std.specs.Prelude.{◌≡◌, ◌<◌, [], ◌∷◌, map, true};
ghost use Rattle.ts_fields.specs.Fitting.{fits};
ghost use Rattle.ts_fields.specs.Layout.{held, number};
ghost use Rattle.ts_table_rows.specs.RowWords.{flag};
ghost use Rattle.ts_table_pages.specs.SiPages.{service_page};

use std::alloc::{AllocError, Global};
use ts_bits::DescriptorList;
use ts_fields::FieldValue;
use ts_table_rows::{Item, ItemList, TableItem};

/// A service of a transport stream.
#[derive(Drop)]
pub struct SdtService {
    /// service_id.
    pub service_id: u16,
    /// EIT_schedule_flag: whether the transport stream has EIT schedule information for the service.
    pub schedule: bool,
    /// EIT_present_following_flag: whether the transport stream has EIT present/following information for the service.
    pub present: bool,
    /// running_status, 0 to 7.
    pub running: u8,
    /// free_CA_mode: whether components of the service may be scrambled.
    pub free_ca: bool,
    /// The descriptors of the service.
    pub descriptors: DescriptorList,
    pub ghost running_in_range: { running < 8 },
}

impl Item for SdtService {
    ghost use Rattle.ts_table_rows.specs.TableFitting.{item_fits};
    ghost use Rattle.ts_si.specs.SiTables.{service_item};

    ghost as_item = { λ s. service_item s };

    ghost fits = { item_fits service_page };

    fn of(item: TableItem) -> SdtService {
        let (service_id, schedule, present, running, free_ca) = service_fields(&item.values);
        SdtService {
            service_id,
            schedule,
            present,
            running,
            free_ca,
            descriptors: item.descriptors,
        }
    }

    #[tactic(auto, unfolding(ts_fields::specs::Fitting::fits))]
    fn to_item(&self, alloc: Global) -> Result<TableItem, AllocError> {
        let descriptors = self.descriptors.copy()?;
        let values = vec![in alloc;
            FieldValue::Number(u64::from(self.service_id)),
            FieldValue::Number(u64::from(self.schedule)),
            FieldValue::Number(u64::from(self.present)),
            FieldValue::Number(u64::from(self.running)),
            FieldValue::Number(u64::from(self.free_ca)),
        ]?;
        Ok(TableItem {
            values,
            descriptors,
        })
    }

    fn copy(&self) -> Result<SdtService, AllocError> {
        let descriptors = self.descriptors.copy()?;
        Ok(SdtService {
            service_id: self.service_id,
            schedule: self.schedule,
            present: self.present,
            running: self.running,
            free_ca: self.free_ca,
            descriptors,
        })
    }
}

/// Services in their order.
pub type SdtServiceList = ItemList<SdtService>;

/// The service_id, EIT_schedule_flag, EIT_present_following_flag, running_status and free_CA_mode of a service.
#[tactic(auto, using(ts_table_rows::proofs::ListLemmas::flag_read), unfolding(ts_fields::specs::Fitting::fits))]
fn service_fields(values: &[FieldValue]) -> (u16, bool, bool, u8, bool)
    requires { fits service_page.rows (map held values.now) ≡ true }
    ensures values { map held values.now
        ≡ number result.0 ∷ flag result.1 ∷ flag result.2 ∷ number result.3 ∷ flag result.4 ∷ [] }
    ensures in_range { result.3 < 8 }
{
    let [
        FieldValue::Number(service_id),
        FieldValue::Number(schedule),
        FieldValue::Number(present),
        FieldValue::Number(running),
        FieldValue::Number(free_ca),
    ] = values
    else {
        return (0, false, false, 0, false);
    };
    (
        *service_id as u16,
        *schedule == 1,
        *present == 1,
        *running as u8,
        *free_ca == 1,
    )
}
