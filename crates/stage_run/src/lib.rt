//! The stages of a chain, without their seats in the ring: the cells in a stage's hands come in with the news of its last visit,
//! the cells that it gives on and its word go out. The layer above uses the clauses of `StagePart`, above all of `work`.
#![tactic(auto)]

mod generated_feed;
mod input_part;
mod input_stage;
mod io_buffer;
mod null_feed;
mod output_part;
mod output_stage;
mod packet_feed;
mod packet_row;
mod packet_stream;
mod plugin_stage;
mod stage_part;
mod stuffing;
mod telling;
mod work;
mod writing;

pub use input_part::InputPart;
pub use input_stage::InputStage;
pub use io_buffer::IoBuffer;
pub use output_part::OutputPart;
pub use output_stage::OutputStage;
pub use plugin_stage::PluginStage;
pub use stage_part::StagePart;
pub use stuffing::Stuffing;
pub use work::Work;
