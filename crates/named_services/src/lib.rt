//! Services by their numbers or names. Words of a command line and packets of any PID come in, and the numbers of the services
//! that the words mean by the SDT in force go out. The layer above uses `NamedServices` beside the tables in force, and of
//! the SDT in force alone `SdtInForce`.
#![tactic(auto)]

mod kept_sdts;
mod meant;
mod named;
mod named_services;
mod sdt_in_force;
mod service_list;
mod service_names;
mod service_texts;
mod service_word;
mod services_reading;
mod unnamed;
mod word_list;
mod word_reading;

pub use named::{numbers_by, service_named};
pub use named_services::NamedServices;
pub use sdt_in_force::SdtInForce;
pub use service_list::ServiceList;
pub use service_names::{name_in, provider_in, type_in};
pub use service_texts::{body_with, service_body};
pub use service_word::ServiceWord;
pub use services_reading::read_services;
pub use unnamed::Unnamed;
pub use word_list::ServiceWords;
pub use word_reading::read_service;
