//! Sections: parsed and checked, or built from a head and a body; and runs of all sections of one table.
//! The layer above uses `Section::parse`, which returns a valid section, or else the first broken rule.
#![tactic(auto)]

mod crc;
mod crc_table;
mod fault;
mod long_head;
mod section;
mod section_laws;
mod table_run;

pub use crc::crc_of;
pub use fault::{RunFault, SectionFault, SectionRule};
pub use long_head::LongHead;
pub use section::{LONG_BODY_PLACE, MOST_SECTION_LENGTH, SHORT_BODY_PLACE, Section};
pub use section_laws::{made_sections_are_valid, runs_share_their_head};
pub use table_run::TableRun;
