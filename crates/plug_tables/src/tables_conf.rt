//! The settings of `tables`.

use plugin_options::NumberSet;

/// Settings of `tables`, which reports the tables of a stream.
#[derive(Drop)]
pub struct TablesConf {
    /// The PIDs that are watched. If the list is empty, these are 0, 1, 16 to 18 and those of the PMTs.
    pub pid: NumberSet,
    /// The table_ids of the tables that are reported. If the list is empty, all tables are.
    pub tid: NumberSet,
}
