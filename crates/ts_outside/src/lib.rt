//! The outside as three traits: sources of bytes, sinks for bytes, and a desk that opens them and takes reports.
//! The layer above uses the clauses of `Desk`, `Source` and `Sink`, and nothing else.
#![tactic(auto)]

mod closed_inputs;
mod closed_outputs;
mod counts;
mod desks;
mod fail_plan;
mod faults;
mod file_bytes;
mod file_list;
mod gates;
mod memory_desk;
mod memory_sink;
mod memory_source;
mod name_text;
mod number_list;
mod preallocated_desk;
mod preallocated_sink;
mod preallocated_source;
mod reading;
mod requests;
mod saying;
mod sinks;
mod sources;
mod stream_names;
mod wholes;

pub use closed_inputs::ClosedInput;
pub use counts::one_more;
pub use desks::Desk;
pub use fail_plan::FailPlan;
pub use faults::{Failed, FileFault, OpenFault};
pub use file_bytes::FileBytes;
pub use file_list::FileList;
pub use gates::{Gate, OpenGate};
pub use memory_desk::MemoryDesk;
pub use memory_sink::MemorySink;
pub use memory_source::MemorySource;
pub use name_text::NameText;
pub use number_list::NumberList;
pub use preallocated_desk::PreallocatedDesk;
pub use preallocated_sink::PreallocatedSink;
pub use preallocated_source::PreallocatedSource;
pub use reading::read_to_end;
pub use requests::{Asked, Purpose};
pub use saying::say;
pub use sinks::Sink;
pub use sources::Source;
pub use wholes::{CutShort, report_whole, write_whole};
