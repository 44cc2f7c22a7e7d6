//! What is said of a call that ended by a fault: the wrong word, the file with the system's reason, or the place of the fault in it.
use explain_tables::{compile_text, decompile_text};
use explain_words::{WordRow, words_text};
use std::alloc::{AllocError, Global};
use tabcomp_top::TabStatus;
use ts_os::{Trouble, after_name, trouble_text};
use ts_outside::Purpose;

/// How the words may stand.
const USAGE: &str = "tstabcomp --compile | --decompile | --canonical [INPUT [OUTPUT]]";

/// What may come after a word.
static ROWS: [WordRow; 1] = [WordRow {
    after: "",
    said: "the first word is --compile, --decompile or --canonical",
}];

/// A name on the command line; `stream` where it is absent or empty.
fn name_or<'a>(words: &'a [String], place: usize, stream: &'a str) -> &'a str {
    match words.get(place) {
        Some(name) if !name.is_empty() => name.as_str(),
        _ => stream,
    }
}

// What is said of a file that the system refused.
fn refused_text(alloc: Global, words: &[String], trouble: Trouble) -> Result<String, AllocError> {
    let name = match trouble.purpose {
        Purpose::Output => name_or(words, 2, "standard output"),
        Purpose::Input | Purpose::File => name_or(words, 1, "standard input"),
    };
    trouble_text(alloc, name, trouble)
}

/// The text; `None` where there is nothing to say.
pub(crate) fn end_text(
    alloc: Global,
    words: &[String],
    status: &TabStatus,
    trouble: Option<Trouble>,
    file: Option<&[u8]>,
) -> Result<Option<String>, AllocError> {
    let said = match (status, trouble) {
        (TabStatus::Words { word }, _) => {
            return Ok(Some(words_text(alloc, &ROWS, words, *word, USAGE)?));
        }
        (TabStatus::ReadFault | TabStatus::WriteFault, Some(trouble)) => {
            return Ok(Some(refused_text(alloc, words, trouble)?));
        }
        (TabStatus::Compile(fault), _) => compile_text(alloc, fault, file)?,
        (TabStatus::Decompile(fault), _) => {
            let json = "it begins as a JSON text does; --compile reads one\n";
            decompile_text(alloc, *fault, file, json)?
        }
        (TabStatus::TooMany, _) => String::from_str(alloc, "longer than 16,777,216 bytes\n")?,
        _ => return Ok(None),
    };
    let text = after_name(alloc, name_or(words, 1, "standard input"), said.as_str())?;
    Ok(Some(text))
}
