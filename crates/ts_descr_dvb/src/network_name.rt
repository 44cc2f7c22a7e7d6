//! The fields of a `network_name_descriptor` (ETSI EN 300 468, 6.2.27).

use crate::listed::list_of;
use std::alloc::{AllocError, Global};
use ts_descr::{Fields, bytes_value};
use ts_fields::FieldValue;

/// The name of a network (ETSI EN 300 468, 6.2.27).
#[derive(Drop)]
pub struct NetworkName {
    /// `network_name`: a text up to the end.
    pub network_name: Vec<u8>,
}

impl Fields for NetworkName {
    ghost use Rattle.ts_pages.specs.DvbPages.{network_name};
    ghost use Rattle.ts_descr_dvb.specs.DvbFields.{network_name_fields};

    ghost rows = { network_name.head };

    ghost fields = { network_name_fields };

    #[tactic(auto, unfolding(ts_fields::specs::Fitting::fits))]
    fn of(alloc: Global, values: &[FieldValue]) -> Result<Option<NetworkName>, AllocError> {
        let [FieldValue::Bytes(network_name)] = values else {
            return Ok(None);
        };
        Ok(Some(NetworkName {
            network_name: Vec::from_slice(alloc, network_name)?,
        }))
    }

    #[tactic(auto, unfolding(ts_fields::specs::Fitting::fits_uncounted))]
    fn values(&self, alloc: Global) -> Result<Vec<FieldValue>, AllocError> {
        let network_name = bytes_value(alloc, &self.network_name)?;
        list_of(alloc, [network_name])
    }
}
