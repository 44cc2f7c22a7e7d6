//! Packets that are found again in bytes with damage: where five sync bytes in a row make a beginning, one wanting is
//! passed over, and two wanting in a row begin the search anew. Bytes come in, and where the next packet is goes out.
//! The layer above uses `find`, whose contract says that the search goes on behind what it left out, `units_in_row` and the laws.
#![tactic(auto)]

mod finding;
mod laws;
mod places;
mod unit_row;

pub use finding::{Place, find};
pub use laws::{
    files_without_damage, first_bytes_decide, packets_stand_in_the_bytes, runs_found_again,
};
pub use unit_row::units_in_row;
