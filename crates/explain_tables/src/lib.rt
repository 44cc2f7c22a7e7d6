//! What is said of a text of tables that was not compiled, and of bytes that were not decompiled: a fault comes in, and the file
//! where it was kept; lines that name the place, what is wrong there and what may be there go out. The programs above use
//! `compile_text` and `decompile_text`. No clause says what the texts are: their rows are in `test_explain`.
#![tactic(auto)]

mod compile_fault;
mod file_kind;
mod json_fault;
mod known;
mod section_fault;
mod syntax;

pub use compile_fault::compile_text;
pub use section_fault::decompile_text;
