//! The tables NIT, BAT and SDT of DVB. A run of sections comes in and a table goes out, or a table comes in and its
//! sections go out. The layer above rests on `read`, exact to the first broken rule, and on `sections`, exact to the
//! rule of filling.
#![tactic(auto)]

mod bat;
mod heads;
mod nit;
mod sdt;
mod services;
mod stream_body;
mod streams;

pub use bat::Bat;
pub use nit::Nit;
pub use sdt::Sdt;
pub use services::{SdtService, SdtServiceList};
pub use streams::{NitStream, NitStreamList};
pub use ts_table_pages::{bat_layout, nit_layout, sdt_layout};
