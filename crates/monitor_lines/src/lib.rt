//! Errors of a stream by the indicators of ETSI TR 101 290, and their lines. An error comes in as a note of its packet; its line
//! goes out. The layer above uses `line_of_error`, by the clauses of `LineNote`.
#![tactic(auto)]

mod detail;
mod indicator;
mod missing;
mod monitor_error;

pub use detail::Detail;
pub use indicator::Indicator;
pub use missing::Missing;
pub use monitor_error::MonitorError;
