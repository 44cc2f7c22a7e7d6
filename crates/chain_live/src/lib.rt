//! The report that is printed while a run goes (`specs/LiveReports.antt`): a function of the chain and the cut. Its laws tie it
//! to the report that is printed after the end; they run nothing.
#![tactic(auto)]

mod laws;

pub use laws::{a_report_grows, one_plugin_alone, one_plugin_at_a_time, only_what_was_met};
