//! Tables of transport streams, and the items of services in NIT and BAT: tables in which some services go, or have another
//! number, in one transport stream. The layer above gives the services and the transport stream, uses `edited_streams` by
//! its clause, and keeps edits that go by the transport stream of the PAT in force by `set_stream`.
#![tactic(auto)]

mod bats;
mod listed_services;
mod stream_edits;
mod streams;

pub use bats::is_bat;
pub use stream_edits::edited_streams;
pub use streams::{OfStream, set_stream, stream_in_force};
