//! The top call of `tsp`: words and a desk come in; packets go out, reports are printed, a status is returned.
//! The program uses the clause of `explained_call`, which is that of `tsp_call`, the stream theorem, and nothing else.
#![tactic(auto)]

mod beginning;
mod call;
mod call_end;
mod call_notes;
mod driver;
mod end_line;
mod finishing;
mod gap_places;
mod in_threads;
mod input_report;
mod input_texts;
mod judging;
mod live_report;
mod live_run;
mod one_thread;
mod opened_call;
mod opening;
mod planning;
mod preallocated;
mod ready;
mod report;
mod reporting;
mod saying;
mod status;
mod stream_law;
mod tables;
mod told_texts;
mod words;

pub use call::{explained_call, serial_call, threaded_call, tsp_call};
pub use call_end::CallEnd;
pub use call_notes::{IdlePlugin, NotedChange, PluginNotes};
pub use chain_args::{WordsFault, WordsRule};
pub use plugin_set::{ChangedOn, Idle};
pub use preallocated::preallocated_call;
pub use status::Status;
pub use stream_law::{completeness, headline, memory_first, sizes_change_nothing};
pub use tabcomp_core::TableFileFault;
