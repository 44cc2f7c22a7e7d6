//! Compiling a JSON text to the sections of its tables, and decompiling bytes to the JSON text of their tables.
//! The layer above uses `compile`, `sections_of` and `decompile`, and `table_sections` for a file of either kind.
#![tactic(auto)]

mod compile_laws;
mod compiling;
mod cutting;
mod decompiling;
mod dividing;
mod fault;
mod table_file;
mod table_file_fault;
mod table_file_law;
mod table_runs;

pub use compile_laws::compiled_is_decompiled;
pub use compiling::compile;
pub use cutting::sections_of;
pub use decompiling::decompile;
pub use dividing::runs_are_told;
pub use fault::{CompileFault, DecompileFault};
pub use table_file::{MOST_BYTES, table_sections};
pub use table_file_fault::{NoTables, TableFileFault};
pub use table_file_law::memory_refuses_no_file;
