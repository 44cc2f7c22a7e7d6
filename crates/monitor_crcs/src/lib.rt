//! Sections with a wrong CRC. Packets come in, and the table_ids of what would be sections but for their CRCs go out. The layer
//! above keeps a `WrongCrcs` for each PID: by the clauses of `feed` and `next_table` it tells what the definition tells of all
//! packets fed.
#![tactic(auto)]

mod crc_laws;
mod piece;
mod pieces;
mod reader;
mod tables;
mod wrong_crcs;

pub use crc_laws::{a_spoiled_piece_lacks_its_crc_alone, a_valid_section_is_not_spoiled};
pub use piece::is_spoiled;
pub use tables::{TOT_ID, is_told};
pub use wrong_crcs::WrongCrcs;
