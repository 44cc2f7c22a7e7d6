//! The descriptors of ETSI EN 300 468 as values with a field for each name. Descriptors come in and values go out, or
//! the other way. The layer above rests on `DvbDescr::read` and `DvbDescr::write`, by the pages of `ts_pages`.
#![tactic(auto)]

mod bouquet_name;
mod ca_system;
mod classification;
mod component;
mod country;
mod dvb_descr;
mod listed;
mod listed_service;
mod network_name;
mod private_data_specifier;
mod service;
mod short_event;
mod stream_identifier;
mod subtitle;
mod teletext_page;
mod text;

pub use bouquet_name::BouquetName;
pub use ca_system::CaSystem;
pub use classification::Classification;
pub use component::Component;
pub use country::Country;
pub use dvb_descr::DvbDescr;
pub use listed_service::ListedService;
pub use network_name::NetworkName;
pub use private_data_specifier::PrivateDataSpecifier;
pub use service::Service;
pub use short_event::ShortEvent;
pub use stream_identifier::StreamIdentifier;
pub use subtitle::Subtitle;
pub use teletext_page::TeletextPage;
pub use text::{TextBytes, TextValue, text_bytes, text_of};
pub use ts_descr::{DescrRefusal, LanguageCode};
