//! At which place a text is no JSON. The place is that of the parser.
use serde_json::Value;
use std::alloc::{AllocError, Global};

/// What is said of bytes that are not JSON in UTF-8: a line with the place.
pub(crate) fn syntax_text(alloc: Global, bytes: &[u8]) -> Result<String, AllocError> {
    let text = match str::from_utf8(bytes) {
        Ok(text) => text,
        Err(error) => {
            let place = error.valid_up_to();
            return format!(in alloc; "byte {place}: not UTF-8\n");
        }
    };
    match Value::from_str(alloc, text) {
        Err(error) if error.line() > 0 => {
            let line = error.line();
            let column = error.column();
            format!(in alloc; "line {line}, column {column}: not JSON\n")
        }
        _ => String::from_str(alloc, "not JSON\n"),
    }
}
