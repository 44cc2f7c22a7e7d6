//! Explains a refused command line, and a run that failed, found nothing to edit or did not see a table change, on standard error
//! alone.
use crate::note_texts::notes_text;
use crate::run_texts::run_text;
use chain_args::{Plan, WordsFault, WordsRule};
use explain_tsp::tsp_help;
use explain_words::fault_text;
use std::alloc::AllocError;
use ts_os::{OsDesk, write_explained};
use tsp_top::{CallEnd, PluginNotes, Status};

/// The text about a refused command line: its segment, the wrong word, and what may be there.
fn words_text(
    rt: &HostRuntime,
    words: &[String],
    word: usize,
    rule: WordsRule,
) -> Result<String, AllocError> {
    let table = tsp_help(rt.alloc())?;
    fault_text(rt.alloc(), &table, words, word, rule)
}

/// Explains a refused command line.
fn explain_words(rt: &HostRuntime, words: &[String], word: usize, rule: WordsRule) {
    if let Ok(text) = words_text(rt, words, word, rule) {
        write_explained(rt, text.as_str());
    }
}

/// Explains a run of a plan that failed.
fn explain_run(rt: &HostRuntime, plan: &Plan, status: &Status, desk: &OsDesk) {
    if let Ok(Some(text)) = run_text(rt.alloc(), plan, status, desk.noted()) {
        write_explained(rt, text.as_str());
    }
}

/// Explains a run of a plan that went well, and in which plugins were idle or tables changed without a new version.
fn explain_notes(rt: &HostRuntime, plan: &Plan, notes: &PluginNotes) {
    if let Ok(text) = notes_text(rt.alloc(), plan, notes) {
        if !text.is_empty() {
            write_explained(rt, text.as_str());
        }
    }
}

/// Explains how a call with these words at this desk ended. Running out of memory and a fault of standard error leave it out, and
/// change nothing else.
pub(crate) fn explain(rt: &HostRuntime, words: &[String], end: &CallEnd, desk: &OsDesk) {
    match (&end.status, &end.plan) {
        (Status::Words(WordsFault::At { word, rule }), _) => explain_words(rt, words, *word, *rule),
        (Status::Done | Status::InputEnded | Status::FaultFound, Some(plan)) => {
            explain_notes(rt, plan, &end.notes);
        }
        (status, Some(plan)) => explain_run(rt, plan, status, desk),
        (_, None) => {}
    }
}
