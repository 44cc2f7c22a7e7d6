//! Transport stream packets of 188 bytes: header fields, adaptation field, payload and PCR are read and set.
//! The layer above uses `Packet`, which contracts see as its bytes; each reader returns its field of `specs/`.
#![tactic(auto)]

mod cell;
mod label_laws;
mod labelled;
mod labels;
mod live_packet;
mod no_sync;
mod numbers;
mod packet;
mod pid_row;
mod row_laws;

pub use cell::Cell;
pub use label_laws::labels_are_a_set;
pub use labelled::Labelled;
pub use labels::{LABEL_COUNT, Labels};
pub use live_packet::LivePacket;
pub use no_sync::NoSync;
pub use numbers::{NULL_PID, PACKET_SIZE, PAYLOAD_SIZE, PID_COUNT, SYNC_BYTE};
pub use packet::Packet;
pub use pid_row::PidRow;
pub use row_laws::{met_rows_are_live_rows, rows_are_live_packets};
