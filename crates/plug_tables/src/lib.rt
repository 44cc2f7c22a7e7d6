//! The plugin `tables`. Packets come in and pass; each table that they complete on a watched PID goes out as a line with
//! its JSON element. The layer above reads its settings from words, makes the plugin, and uses it by the clauses of
//! `Plugin`, which relate the lines to the cells that count.
#![tactic(auto)]

mod limits;
mod table_reader;
mod tables;
mod tables_conf;
mod tables_words;
mod telling;

pub use limits::LAST_TABLE_ID;
pub use tables::Tables;
pub use tables_conf::TablesConf;
