//! Decompiling: from bytes to the JSON text of their tables.
//!
//! The text is written table by table, so that one element is held at a time and not all: what comes before the tables,
//! the commas and what comes after are written here, and each table's element by `serde_json`. The text is proved to be
//! the compact text of the whole. That it is read as the whole is shown from what each element's own text says
//! (`IsReadWithin`), by the lemmas of `json` on tokens; so this crate names `json`, and calls no code of it.

ghost use Rattle.std.specs.Prelude.{◌≡◌, ◌++◌, List, ℕ, false, All, map, Ok, IfOk, OnOk, string_bytes};
ghost use Rattle.serde_json.specs.View.{view};
ghost use Rattle.serde_json.specs.Written.{comma_if, compact_text};
ghost use Rattle.ts_json_tables.specs.RunTables.{table_of_run};
ghost use Rattle.ts_json_tables.specs.TableElements.{table_shown};
ghost use Rattle.ts_json_tables.specs.ToldTables.{IsKept};
ghost use Rattle.tabcomp_core.specs.Compiling.{compiled, tables_bytes};
ghost use Rattle.tabcomp_core.specs.Decompiling.{IsReadAgain, decompiled, tables_text};
ghost use Rattle.tabcomp_core.specs.ElementTexts.{children_text, head_text};
ghost use Rattle.tabcomp_core.specs.Faithful.{IsFaithful};
ghost use Rattle.tabcomp_core.specs.TableRuns.{Decompiles, table_runs};
ghost use Rattle.tabcomp_core.specs.ToldAgain.{IsSameAgain};

use crate::fault::DecompileFault;
use crate::table_runs::runs_of_bytes;
use serde_json::Value;
use std::alloc::{AllocError, Global};
use ts_json_tables::{
    run_tables_are_of_bytes, sections_tell_their_table, shown_table_is_plain, shown_table_is_read,
    table_of, to_json,
};
use ts_jtree::element_shows;
use ts_section::TableRun;

/// The text before the tables.
const HEAD: &str = "{\"#name\":\"tsduck\",\"#nodes\":[";

/// The text after the tables.
const TAIL: &str = "]}";

/// The element of the table of a run, which is read as that table.
fn run_json(alloc: Global, run: &TableRun) -> Result<Value, AllocError>
    ensures shown { IfOk result (λ v. view v ≡ table_shown (table_of_run run.now)) }
    ensures again { IfOk result (λ v. IsReadAgain run.now) }
    ensures kept { IfOk result (λ v. IsKept run.now) }
{
    let table = table_of(alloc, run)?;
    // Laws; they run nothing. They need valid sections, as `sections` returns.
    run_tables_are_of_bytes();
    shown_table_is_read();
    sections_tell_their_table();
    let _sections = run.sections();
    to_json(alloc, &table)
}

/// The text of the table of a run.
fn run_text(alloc: Global, run: &TableRun) -> Result<String, AllocError>
    ensures text { IfOk result (λ text. string_bytes text ≡ compact_text (table_shown (table_of_run run.now))) }
    ensures faithful { IfOk result (λ text. IsFaithful run.now) }
{
    let node = run_json(alloc, run)?;
    // A law; it runs nothing.
    shown_table_is_plain();
    node.to_string(alloc)
}

/// Appends a comma, where tables came before.
fn push_comma(text: &mut String, later: bool) -> Result<(), AllocError>
    ensures { OnOk result (string_bytes text.new ≡ string_bytes text.old ++ comma_if later) }
{
    if later {
        text.push_str(",")?;
    }
    Ok(())
}

/// Appends the text of the table of a run. Its element is dropped afterwards, so that one table at a time is held as an
/// element.
fn push_run(alloc: Global, text: &mut String, later: bool, run: &TableRun) -> Result<(), AllocError>
    ensures text { OnOk result (string_bytes text.new
        ≡ string_bytes text.old ++ (comma_if later ++ compact_text (table_shown (table_of_run run.now)))) }
    ensures faithful { OnOk result (IsFaithful run.now) }
{
    let table = run_text(alloc, run)?;
    push_comma(text, later)?;
    text.push_str(table.as_str())?;
    Ok(())
}

/// The texts of the tables of runs, after the text before the tables.
fn open_text(alloc: Global, runs: &[TableRun]) -> Result<String, AllocError>
    ensures text { IfOk result (λ text. string_bytes text
        ≡ head_text ++ children_text false (map table_shown (map table_of_run runs.now))) }
    ensures faithful { IfOk result (λ text. All IsFaithful runs.now) }
{
    let mut text = String::from_str(alloc, HEAD)?;
    let mut later = false;
    for run in runs {
        push_run(alloc, &mut text, later, run)?;
        later = true;
    }
    Ok(text)
}

/// The text of the tables of runs, which is compiled to their sections, and these are decompiled to it.
fn runs_text(alloc: Global, runs: &[TableRun]) -> Result<String, AllocError>
    ensures text { IfOk result (λ text. string_bytes text ≡ tables_text (map table_of_run runs.now)) }
    ensures again { IfOk result (λ text.
        compiled (string_bytes text) ≡ tables_bytes 0 (map table_of_run runs.now)) }
    ensures same { IfOk result (λ text. IsSameAgain (string_bytes text)) }
{
    let mut text = open_text(alloc, runs)?;
    text.push_str(TAIL)?;
    // Laws; they run nothing.
    shown_table_is_plain();
    element_shows();
    Ok(text)
}

/// The JSON text of the tables in the bytes: the compact text of an element `tsduck` with one child for each run of
/// sections, in order. The first bytes that are not a section are reported before the first section, or the end, at
/// which no run of a table continues. The text is compiled to the sections of these tables, where they have some, and
/// these are decompiled to the same text.
pub fn decompile(alloc: Global, bytes: &[u8]) -> Result<String, DecompileFault>
    ensures text { Decompiles string_bytes result (decompiled bytes.now) }
    ensures again { IfOk result (λ text. (runs : List (List (List ℕ))) → table_runs bytes.now ≡ Ok runs →
        compiled (string_bytes text) ≡ tables_bytes 0 (map table_of_run runs)) }
    ensures same { IfOk result (λ text. IsSameAgain (string_bytes text)) }
{
    let runs = runs_of_bytes(alloc, bytes)?;
    let text = runs_text(alloc, &runs)?;
    Ok(text)
}
