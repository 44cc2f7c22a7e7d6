//! Prints what is said of refused command lines of `tsp`, the words of each and the text; and then what is said of texts of tables that
//! were not compiled, and of bytes that were not decompiled, what each row is about and the text. The texts were written by hand, and
//! are the only statement of what is said. At the end stands what is said of each segment, of which tools/texts makes the texts of help.
#![tactic(auto)]

mod json_rows;
mod place_rows;
mod section_rows;
mod table_rows;
mod text_rows;
mod word_rows;

use anyhow::Result;
use explain_tables::{compile_text, decompile_text};
use explain_tsp::tsp_help;
use explain_words::{SegmentRow, fault_text, words_text};
use json_rows::{JsonRow, json_tables};
use place_rows::{PlaceRow, USAGE, may_stand, place_rows};
use section_rows::{SectionRow, section_tables};
use tabcomp_core::CompileFault;
use table_rows::table_rows;
use text_rows::text_rows;
use ts_jtree::{JsonFault, KeyText, PathList};
use word_rows::{WordsRow, word_rows};

/// The words of a text, which stand between spaces; in a word `~` stands for a blank.
fn words_of(rt: &HostRuntime, text: &str) -> Result<Vec<String>> {
    let mut words = Vec::new(rt.alloc());
    for part in text.split(' ') {
        let mut word = String::new(rt.alloc());
        for character in part.chars() {
            word.push(if character == '~' { ' ' } else { character })?;
        }
        words.push(word)?;
    }
    Ok(words)
}

/// Prints what is said of a row.
fn show_words(rt: &HostRuntime, row: &WordsRow) -> Result<()> {
    let words = words_of(rt, row.words)?;
    let table = tsp_help(rt.alloc())?;
    let text = fault_text(rt.alloc(), &table, words.as_slice(), row.at, row.rule)?;
    print!(rt; "tsp {}\n{text}", row.words)?;
    Ok(())
}

/// Prints what is said of a row.
fn show_place(rt: &HostRuntime, row: &PlaceRow) -> Result<()> {
    let words = words_of(rt, row.words)?;
    let text = words_text(rt.alloc(), may_stand(), words.as_slice(), row.at, USAGE)?;
    print!(rt; "places {}\n{text}", row.about)?;
    Ok(())
}

/// The fault of a row.
fn json_fault(rt: &HostRuntime, row: &JsonRow) -> Result<CompileFault> {
    let path = Vec::from_slice(rt.alloc(), row.path)?;
    let key = String::from_str(rt.alloc(), row.key)?;
    Ok(CompileFault::Json(JsonFault {
        path: PathList::of(path),
        key: KeyText::of(key),
        kind: row.kind,
    }))
}

/// Prints what is said of a text.
fn show_text(rt: &HostRuntime, about: &str, fault: &CompileFault, file: &[u8]) -> Result<()> {
    let text = compile_text(rt.alloc(), fault, (!file.is_empty()).then_some(file))?;
    print!(rt; "{about}:\n{text}")?;
    Ok(())
}

/// Prints a table of rows of JSON values.
fn show_json(rt: &HostRuntime, rows: &[JsonRow]) -> Result<()> {
    for row in rows {
        let fault = json_fault(rt, row)?;
        show_text(rt, row.about, &fault, row.text.as_bytes())?;
    }
    Ok(())
}

/// Prints a table of rows of sections.
fn show_sections(rt: &HostRuntime, rows: &[SectionRow]) -> Result<()> {
    for row in rows {
        let file = (!row.file.is_empty()).then_some(row.file);
        let json = "it begins as a JSON text does\n";
        let text = decompile_text(rt.alloc(), row.fault, file, json)?;
        print!(rt; "{}:\n{text}", row.about)?;
    }
    Ok(())
}

/// Prints the rows of texts.
fn show_texts(rt: &HostRuntime) -> Result<()> {
    for rows in json_tables() {
        show_json(rt, rows)?;
    }
    for row in table_rows() {
        let fault = CompileFault::TooLarge {
            table: row.table,
            refusal: row.refusal,
        };
        show_text(rt, row.about, &fault, &[])?;
    }
    show_text(rt, "no JSON", &CompileFault::NotJson, &[])?;
    for row in text_rows() {
        show_text(rt, row.about, &CompileFault::NotJson, row.file)?;
    }
    Ok(())
}

/// Prints what is said of a segment.
fn show_segment(rt: &HostRuntime, segment: &SegmentRow) -> Result<()> {
    print!(rt;
        "help of {} {}:\nusage: {}\n",
        segment.first, segment.name, segment.usage
    )?;
    for option in &segment.options {
        print!(rt; "    {}: {}\n", option.form.as_str(), option.meaning)?;
    }
    print!(rt; "rule: {}\n", segment.rule)?;
    Ok(())
}

/// Prints what is said of all segments, of which the texts of help are made.
fn show_help(rt: &HostRuntime) -> Result<()> {
    let table = tsp_help(rt.alloc())?;
    show_segment(rt, &table.general)?;
    for segment in &table.segments {
        show_segment(rt, segment)?;
    }
    Ok(())
}

fn main(rt: HostRuntime) -> Result<()> {
    for row in word_rows() {
        show_words(&rt, row)?;
    }
    for row in place_rows() {
        show_place(&rt, row)?;
    }
    show_texts(&rt)?;
    for rows in section_tables() {
        show_sections(&rt, rows)?;
    }
    show_help(&rt)
}
