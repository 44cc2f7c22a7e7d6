//! The clock of a stream. Packets come in with their positions; the time that the PCRs tell goes out. The layer above keeps a
//! `StreamClock` and hands it each packet: its clauses say that it is the clock after all cells that were met.
#![tactic(auto)]

mod clock_units;
mod last_clock;
mod limits;
mod stream_clock;
mod stream_clock_laws;

pub use clock_units::units_after;
pub use last_clock::LastClock;
pub use limits::{CLOCK_PERIOD, CLOCK_RATE, LONGEST_GAP, MOST_UNITS, PACKET_UNITS};
pub use stream_clock::StreamClock;
pub use stream_clock_laws::{
    a_joint_is_bridged_at_the_mean, constant_rate_has_the_time_of_its_positions,
    dropped_cells_have_no_time, the_step_clock_never_goes_back,
};
