//! The plugin `pcrverify`. Packets come in and pass; a line goes out for each PCR that is too far from the one
//! expected at a constant bit rate, and the summary has the numbers. The layer above reads its settings from words,
//! makes the plugin, and uses it by the clauses of `Plugin`, which relate lines and summary to the cells that count.
#![tactic(auto)]

mod clock_fault;
mod clock_laws;
mod clock_note;
mod jitter;
mod last_clock;
mod last_clocks;
mod limits;
mod noted_clocks;
mod pcrverify;
mod pcrverify_conf;
mod pcrverify_words;

pub use clock_fault::ClockFault;
pub use clock_laws::{constant_rate_is_exact_to_a_unit, jitter_is_the_least_change};
pub use clock_note::ClockNote;
pub use limits::{DEFAULT_JITTER, MOST_BITRATE, MOST_JITTER};
pub use pcrverify::Pcrverify;
pub use pcrverify_conf::PcrverifyConf;
