//! The fields of a `service_descriptor` (ETSI EN 300 468, 6.2.33).

use crate::listed::list_of;
use std::alloc::{AllocError, Global};
use ts_descr::{Fields, bytes_value};
use ts_fields::FieldValue;

/// The type, the provider and the name of a service (ETSI EN 300 468, 6.2.33).
#[derive(Drop)]
pub struct Service {
    /// `service_type`, 8 bits.
    pub service_type: u8,
    /// `service_provider_name`: a text, at most 255 bytes.
    pub service_provider_name: Vec<u8>,
    /// `service_name`: a text, at most 255 bytes.
    pub service_name: Vec<u8>,
}

impl Fields for Service {
    ghost use Rattle.ts_pages.specs.DvbPages.{service};
    ghost use Rattle.ts_descr_dvb.specs.DvbFields.{service_fields};

    ghost rows = { service.head };

    ghost fields = { service_fields };

    #[tactic(auto, unfolding(ts_fields::specs::Fitting::fits))]
    fn of(alloc: Global, values: &[FieldValue]) -> Result<Option<Service>, AllocError> {
        let [
            FieldValue::Number(service_type),
            FieldValue::Bytes(service_provider_name),
            FieldValue::Bytes(service_name),
        ] = values
        else {
            return Ok(None);
        };
        Ok(Some(Service {
            service_type: *service_type as u8,
            service_provider_name: Vec::from_slice(alloc, service_provider_name)?,
            service_name: Vec::from_slice(alloc, service_name)?,
        }))
    }

    #[tactic(auto, unfolding(ts_fields::specs::Fitting::fits_uncounted))]
    fn values(&self, alloc: Global) -> Result<Vec<FieldValue>, AllocError> {
        let service_provider_name = bytes_value(alloc, &self.service_provider_name)?;
        let service_name = bytes_value(alloc, &self.service_name)?;
        list_of(
            alloc,
            [
                FieldValue::Number(u64::from(self.service_type)),
                service_provider_name,
                service_name,
            ],
        )
    }
}
