//! Real files and standard streams as a desk. Names come in; bytes are read from the system and written to it.
//! The programs use the clauses of `Desk`, `Source` and `Sink`; which bytes the system moves is trusted.
#![tactic(auto)]

mod calls;
mod file_id;
mod file_kind;
mod noted;
mod open_files;
mod opened;
mod opening;
mod os_desk;
mod os_sink;
mod os_source;
mod read_ahead;
mod reason;
mod saying;
mod trouble;

pub use noted::Noted;
pub use os_desk::OsDesk;
pub use os_sink::OsSink;
pub use os_source::OsSource;
pub use reason::Reason;
pub use saying::{
    after_name, is_wanted, put_shown, refuse_terminal, trouble_text, write_explained,
};
pub use trouble::Trouble;
