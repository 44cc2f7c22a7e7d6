//! The plugin `timestamps`, which reports the clocks and time stamps that packets tell. The layer above reads its settings
//! from words, makes the plugin of its settings, and uses it by the clauses of `Plugin`.
#![tactic(auto)]

mod clock_steps;
mod limits;
mod pes_times;
mod shown;
mod stamp;
mod stamp_lines;
mod step_row;
mod summary;
mod timestamps;
mod timestamps_conf;
mod timestamps_words;

pub use pes_times::{PesTimes, times_in};
pub use shown::Shown;
pub use timestamps::Timestamps;
pub use timestamps_conf::TimestampsConf;
