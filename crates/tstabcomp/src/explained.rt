//! What is shown beside the line of a status, on standard error alone.
use crate::end_texts::end_text;
use tabcomp_top::TabStatus;
use ts_os::{OsDesk, write_explained};

/// Explains how a call at this desk ended. Running out of memory and a fault of standard error leave it out, and change
/// nothing else.
pub(crate) fn explain(rt: &HostRuntime, words: &[String], status: &TabStatus, desk: &OsDesk) {
    if let Ok(Some(text)) = end_text(
        rt.alloc(),
        words,
        status,
        desk.noted().trouble(),
        desk.noted().file(),
    ) {
        write_explained(rt, text.as_str());
    }
}
