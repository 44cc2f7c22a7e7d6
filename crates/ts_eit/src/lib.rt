//! The EIT of DVB. A run of one section comes in and the table goes out, with starts and durations in seconds, or a
//! table comes in and its section goes out. The layer above rests on `read`, exact to the first broken rule, and on
//! `sections`, exact to the section or its refusal; `is_of_service` says which sections are of a service's EITs.
#![tactic(auto)]

mod eit;
mod eit_sections;
mod event_rows;
mod events;
mod heads;
mod start;
mod times;

pub use eit::Eit;
pub use eit_sections::is_of_service;
pub use events::{Event, EventList};
pub use start::Start;
pub use ts_table_pages::eit_layout;
