//! Tables from runs of sections and from JSON elements, and tables as JSON elements and as sections.
//! The layer above uses `table_of`, `to_json`, `of_json` and `table_sections`, and `shown_table_is_read`.
#![tactic(auto)]

mod children;
mod heading;
mod items;
mod known;
mod reading;
mod rows;
mod runs;
mod sections;
mod short_pages;
mod short_reading;
mod short_showing;
mod showing;
mod table;
mod table_laws;
mod time_offset;
mod values;

pub use reading::{of_json, tables_of_json};
pub use runs::table_of;
pub use sections::table_sections;
pub use short_pages::short_layout_named;
pub use showing::to_json;
pub use table::{LaidTable, LongTable, ShortTable, Table};
pub use table_laws::{
    read_tables_are_valid, run_tables_are_of_bytes, sections_tell_their_table,
    shown_table_is_plain, shown_table_is_read,
};
pub use time_offset::tot_fields;
