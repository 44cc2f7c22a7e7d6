//! The delivery system descriptors.

ghost use Rattle.std.specs.Prelude.{◌≡◌, option_map, IfOk};
ghost use Rattle.ts_descr.specs.Descriptors.{read_typed, Writes, IsReadBack};
ghost use Rattle.ts_descr_delivery.specs.DeliveryDescrs.{delivery_pages, delivery_page, delivery_holding, delivery_typed};

use crate::cable::Cable;
use crate::satellite::Satellite;
use crate::terrestrial::Terrestrial;
use std::alloc::{AllocError, Global};
use ts_bits::Descriptor;
use ts_descr::{DescrRefusal, read_fields, write_fields};
use ts_pages::delivery;

/// A descriptor of ETSI EN 300 468, 6.2.13, with a field for each name of its page.
#[derive(Drop)]
pub enum DeliveryDescr {
    /// Tag 0x43: how a satellite carries a transport stream (6.2.13.2).
    Satellite(Satellite),
    /// Tag 0x44: how a cable carries a transport stream (6.2.13.1).
    Cable(Cable),
    /// Tag 0x5A: how a terrestrial transmitter carries a transport stream (6.2.13.4).
    Terrestrial(Terrestrial),
}

impl DeliveryDescr {
    /// The value of a descriptor; `None` exactly where its tag is none of these, or its body is not of the page of
    /// its tag, in which reserved bits are ones. An `AllocError` where memory runs out.
    pub fn read(alloc: Global, from: &Descriptor) -> Result<Option<DeliveryDescr>, AllocError>
        ensures { IfOk result (λ o. option_map delivery_typed o ≡ read_typed delivery_pages from.now) }
    {
        match from.tag() {
            0x43 => match read_fields(alloc, &delivery::SATELLITE, from)? {
                Some(value) => Ok(Some(DeliveryDescr::Satellite(value))),
                None => Ok(None),
            },
            0x44 => match read_fields(alloc, &delivery::CABLE, from)? {
                Some(value) => Ok(Some(DeliveryDescr::Cable(value))),
                None => Ok(None),
            },
            0x5A => match read_fields(alloc, &delivery::TERRESTRIAL, from)? {
                Some(value) => Ok(Some(DeliveryDescr::Terrestrial(value))),
                None => Ok(None),
            },
            _ => Ok(None),
        }
    }

    /// The descriptor with this value; `TooLarge` exactly where its body would have more than 255 bytes, unless
    /// memory runs out. `read` returns this value for no other descriptor.
    pub fn write(&self, alloc: Global) -> Result<Descriptor, DescrRefusal>
        ensures written { Writes (delivery_page self.now) (delivery_holding self.now) result }
        ensures back { IfOk result (λ d. IsReadBack delivery_pages (delivery_typed self.now) d) }
    {
        match self {
            DeliveryDescr::Satellite(value) => write_fields(alloc, &delivery::SATELLITE, value),
            DeliveryDescr::Cable(value) => write_fields(alloc, &delivery::CABLE, value),
            DeliveryDescr::Terrestrial(value) => write_fields(alloc, &delivery::TERRESTRIAL, value),
        }
    }
}
