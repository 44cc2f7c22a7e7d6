//! The words of `tsswitch`: words come in, its settings or the first faulty word go out. The layer above uses
//! `read_words`, which returns `read_of` of the words, else their first fault.
#![tactic(auto)]

mod laws;
mod reading;
mod settings;
mod words;

pub use laws::{first_fault_law, words_read_back};
pub use settings::{SwitchOutput, SwitchSettings};
pub use words::{WordsFault, read_words};
