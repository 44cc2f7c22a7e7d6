//! What is said of a text that was not compiled.
use crate::file_kind::other_than_json;
use crate::json_fault::json_text;
use crate::syntax::syntax_text;
use std::alloc::{AllocError, Global};
use tabcomp_core::CompileFault;
use ts_table_rows::TableRefusal;

/// What is said of a text that was not compiled: a line with the place in it as an RFC 6901 pointer and what is wrong there, or
/// that it is not JSON, or which table has no sections and why. Of the text itself, where it was kept, comes at which place it is
/// not JSON and what it seems to be, and what may be at the place.
pub fn compile_text(
    alloc: Global,
    fault: &CompileFault,
    file: Option<&[u8]>,
) -> Result<String, AllocError> {
    match fault {
        CompileFault::NotJson => {
            let Some(bytes) = file else {
                return String::from_str(
                    alloc,
                    "not JSON in UTF-8; jq . FILE helps to find the line\n",
                );
            };
            let mut text = syntax_text(alloc, bytes)?;
            text.push_str(other_than_json(bytes))?;
            Ok(text)
        }
        CompileFault::Json(fault) => json_text(alloc, fault, file),
        CompileFault::TooLarge { table, refusal } => {
            let mut text = format!(in alloc; "/#nodes/{table}: table {table}, counted from 0: ")?;
            match refusal {
                TableRefusal::TooLarge { bytes } => {
                    write!(
                        text,
                        "too large for one section: section_length would be {bytes}\n"
                    )?;
                }
                TableRefusal::TooMany => {
                    text.push_str("more than 256 sections would be needed\n")?;
                }
                TableRefusal::NoMemory => text.push_str("out of memory\n")?,
            }
            Ok(text)
        }
        CompileFault::NoMemory => String::from_str(alloc, "out of memory\n"),
    }
}
