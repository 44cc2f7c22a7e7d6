//! What is shown beside the report, on standard error alone.
use crate::end_texts::end_text;
use switch_top::SwitchEnd;
use ts_os::{Trouble, is_wanted, write_explained};

/// Explains how a call ended where that is asked for. Running out of memory and a fault of standard error leave it out, and change
/// nothing else.
pub(crate) fn explain(
    rt: &HostRuntime,
    words: &[String],
    end: &SwitchEnd,
    trouble: Option<Trouble>,
) {
    if !is_wanted(rt) {
        return;
    }
    if let Ok(Some(text)) = end_text(rt.alloc(), words, end, trouble) {
        write_explained(rt, text.as_str());
    }
}
