//! What plugins that check packets share: notes on packets, kept for as long as these may be after the cut, their
//! lines, counts by PID, and the continuity counters of all PIDs with their errors. A packet or a PID comes in; a
//! line, a count or an error goes out. The layer above keeps them beside its own state; `TakesBelow`, `IsCounted` and
//! `Remembers` relate them to the cells that were processed.
#![tactic(auto)]

mod continuity_conf;
mod continuity_error;
mod last_packet;
mod last_packets;
mod lines;
mod note_row;
mod tally;

pub use continuity_conf::ContinuityConf;
pub use continuity_error::ContinuityError;
pub use last_packets::LastPackets;
pub use lines::push_line;
pub use note_row::{
    LineNote, PacketNote, drop_below, pop_below, push_if_any, push_lines_below, push_note,
};
pub use tally::Tally;
