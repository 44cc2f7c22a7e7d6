//! The DVB descriptors that have a page, without those of delivery systems.

ghost use Rattle.std.specs.Prelude.{◌≡◌, option_map, IfOk};
ghost use Rattle.ts_descr.specs.Descriptors.{read_typed, Writes, IsReadBack};
ghost use Rattle.ts_descr_dvb.specs.DvbDescrs.{dvb_pages, dvb_page, dvb_holding, dvb_typed};

use crate::bouquet_name::BouquetName;
use crate::ca_system::CaSystem;
use crate::classification::Classification;
use crate::component::Component;
use crate::country::Country;
use crate::listed_service::ListedService;
use crate::network_name::NetworkName;
use crate::private_data_specifier::PrivateDataSpecifier;
use crate::service::Service;
use crate::short_event::ShortEvent;
use crate::stream_identifier::StreamIdentifier;
use crate::subtitle::Subtitle;
use crate::teletext_page::TeletextPage;
use std::alloc::{AllocError, Global};
use ts_bits::Descriptor;
use ts_descr::{DescrRefusal, read_fields, read_items, write_fields, write_items};
use ts_pages::dvb;

/// A descriptor of ETSI EN 300 468, 6.2, with a field for each name of its page.
#[derive(Drop)]
pub enum DvbDescr {
    /// Tag 0x40: the name of a network (6.2.27).
    NetworkName(NetworkName),
    /// Tag 0x41: the services of a transport stream with their types (6.2.35).
    ServiceList(Vec<ListedService>),
    /// Tag 0x47: the name of a bouquet (6.2.4).
    BouquetName(BouquetName),
    /// Tag 0x48: the type, the provider and the name of a service (6.2.33).
    Service(Service),
    /// Tag 0x4D: the name of an event and a short text about it (6.2.37).
    ShortEvent(ShortEvent),
    /// Tag 0x50: the kind, the tag, the language and a text of a component (6.2.8).
    Component(Component),
    /// Tag 0x52: the tag by which other descriptors refer to a component (6.2.39).
    StreamIdentifier(StreamIdentifier),
    /// Tag 0x53: the conditional access systems of a bouquet, a service or an event (6.2.5).
    CaIdentifier(Vec<CaSystem>),
    /// Tag 0x54: the genres of an event (6.2.9).
    Content(Vec<Classification>),
    /// Tag 0x55: the minimum ages for an event, one for each country (6.2.28).
    ParentalRating(Vec<Country>),
    /// Tag 0x56: the Teletext pages of a component, each with its language (6.2.43).
    Teletext(Vec<TeletextPage>),
    /// Tag 0x59: the subtitles of a component, each with its language (6.2.41).
    Subtitling(Vec<Subtitle>),
    /// Tag 0x5F: the organisation that defines the private descriptors that follow (6.2.31).
    PrivateDataSpecifier(PrivateDataSpecifier),
}

impl DvbDescr {
    /// The value of a descriptor; `None` exactly where its tag is none of these, or its body is not of the page of
    /// its tag, in which reserved bits are ones. An `AllocError` where memory runs out.
    pub fn read(alloc: Global, from: &Descriptor) -> Result<Option<DvbDescr>, AllocError>
        ensures { IfOk result (λ o. option_map dvb_typed o ≡ read_typed dvb_pages from.now) }
    {
        match from.tag() {
            0x40 => match read_fields(alloc, &dvb::NETWORK_NAME, from)? {
                Some(value) => Ok(Some(DvbDescr::NetworkName(value))),
                None => Ok(None),
            },
            0x41 => match read_items(alloc, &dvb::SERVICE_LIST, from)? {
                Some(value) => Ok(Some(DvbDescr::ServiceList(value))),
                None => Ok(None),
            },
            0x47 => match read_fields(alloc, &dvb::BOUQUET_NAME, from)? {
                Some(value) => Ok(Some(DvbDescr::BouquetName(value))),
                None => Ok(None),
            },
            0x48 => match read_fields(alloc, &dvb::SERVICE, from)? {
                Some(value) => Ok(Some(DvbDescr::Service(value))),
                None => Ok(None),
            },
            0x4D => match read_fields(alloc, &dvb::SHORT_EVENT, from)? {
                Some(value) => Ok(Some(DvbDescr::ShortEvent(value))),
                None => Ok(None),
            },
            0x50 => match read_fields(alloc, &dvb::COMPONENT, from)? {
                Some(value) => Ok(Some(DvbDescr::Component(value))),
                None => Ok(None),
            },
            0x52 => match read_fields(alloc, &dvb::STREAM_IDENTIFIER, from)? {
                Some(value) => Ok(Some(DvbDescr::StreamIdentifier(value))),
                None => Ok(None),
            },
            0x53 => match read_items(alloc, &dvb::CA_IDENTIFIER, from)? {
                Some(value) => Ok(Some(DvbDescr::CaIdentifier(value))),
                None => Ok(None),
            },
            0x54 => match read_items(alloc, &dvb::CONTENT, from)? {
                Some(value) => Ok(Some(DvbDescr::Content(value))),
                None => Ok(None),
            },
            0x55 => match read_items(alloc, &dvb::PARENTAL_RATING, from)? {
                Some(value) => Ok(Some(DvbDescr::ParentalRating(value))),
                None => Ok(None),
            },
            0x56 => match read_items(alloc, &dvb::TELETEXT, from)? {
                Some(value) => Ok(Some(DvbDescr::Teletext(value))),
                None => Ok(None),
            },
            0x59 => match read_items(alloc, &dvb::SUBTITLING, from)? {
                Some(value) => Ok(Some(DvbDescr::Subtitling(value))),
                None => Ok(None),
            },
            0x5F => match read_fields(alloc, &dvb::PRIVATE_DATA_SPECIFIER, from)? {
                Some(value) => Ok(Some(DvbDescr::PrivateDataSpecifier(value))),
                None => Ok(None),
            },
            _ => Ok(None),
        }
    }

    /// The descriptor with this value; `TooLarge` exactly where its body would have more than 255 bytes, unless
    /// memory runs out. `read` returns this value for no other descriptor.
    pub fn write(&self, alloc: Global) -> Result<Descriptor, DescrRefusal>
        ensures written { Writes (dvb_page self.now) (dvb_holding self.now) result }
        ensures back { IfOk result (λ d. IsReadBack dvb_pages (dvb_typed self.now) d) }
    {
        match self {
            DvbDescr::NetworkName(value) => write_fields(alloc, &dvb::NETWORK_NAME, value),
            DvbDescr::ServiceList(value) => write_items(alloc, &dvb::SERVICE_LIST, value),
            DvbDescr::BouquetName(value) => write_fields(alloc, &dvb::BOUQUET_NAME, value),
            DvbDescr::Service(value) => write_fields(alloc, &dvb::SERVICE, value),
            DvbDescr::ShortEvent(value) => write_fields(alloc, &dvb::SHORT_EVENT, value),
            DvbDescr::Component(value) => write_fields(alloc, &dvb::COMPONENT, value),
            DvbDescr::StreamIdentifier(value) => write_fields(
                alloc,
                &dvb::STREAM_IDENTIFIER,
                value,
            ),
            DvbDescr::CaIdentifier(value) => write_items(alloc, &dvb::CA_IDENTIFIER, value),
            DvbDescr::Content(value) => write_items(alloc, &dvb::CONTENT, value),
            DvbDescr::ParentalRating(value) => write_items(alloc, &dvb::PARENTAL_RATING, value),
            DvbDescr::Teletext(value) => write_items(alloc, &dvb::TELETEXT, value),
            DvbDescr::Subtitling(value) => write_items(alloc, &dvb::SUBTITLING, value),
            DvbDescr::PrivateDataSpecifier(value) => write_fields(
                alloc,
                &dvb::PRIVATE_DATA_SPECIFIER,
                value,
            ),
        }
    }
}
