//! Which sections come on a PID, and what their table_ids say. Packets come in; the sections that each completes go out, and the
//! table_ids among them that may not come on the PID. The layer above keeps a `SectionReader` for each PID: by the clauses of
//! `read` the sections are those that the demultiplexer gives with the packet.
#![tactic(auto)]

mod limits;
mod scrambled;
mod section_reader;
mod table_ids;

pub use limits::{CAT_LIMIT, NIT_LIMIT, PAT_LIMIT, SDT_LIMIT, TDT_LIMIT};
pub use scrambled::{is_scrambled, is_scrambled_pat};
pub use section_reader::SectionReader;
pub use table_ids::{has_table, may_be_on, strangers};
