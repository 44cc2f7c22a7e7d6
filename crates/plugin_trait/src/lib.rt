//! What a plugin is to the chain: a cell comes in with its position, the cell and an outcome go out.
//! The layer above uses the clauses of `Plugin`, which tie what it does to its rule, and nothing else.
#![tactic(auto)]

mod driver;
mod first_find;
mod heard;
mod line;
mod line_text;
mod list_end;
mod outcome;
mod plugin;
mod silent;
mod steps;

pub use chain_model::Reason;
pub use driver::apply_plugin;
pub use first_find::FirstFind;
pub use heard::{Heard, report};
pub use line::Line;
pub use line_text::LineText;
pub use list_end::{Applied, ListEnd};
pub use outcome::Outcome;
pub use plugin::Plugin;
pub use silent::Silent;
pub use steps::Steps;
