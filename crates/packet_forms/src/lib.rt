//! The packet forms of files: bare packets, or some bytes before or after each, which are stripped.
//! The layer above reads a source through `FormSource`, which gives what `stripped_from` says of its bytes.
//!
//! Forms are no plugin's, and belong to how an input is read: the command line, the top call and any other reader of
//! files may depend on this crate. In `plugin_options` they would be below all plugins, and a line about them would
//! have each plugin proved anew; beside a plugin they would make the top call wait for that plugin.
#![tactic(auto)]

mod forms;
mod laws;
mod reading_forms;
mod stripping;

pub use forms::Form;
pub use laws::{packets_of_units, parts_of_a_file};
pub use reading_forms::FormSource;
pub use stripping::strip;
