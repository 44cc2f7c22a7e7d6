//! Whether packets would go to a terminal.
use std::alloc::Global;
use std::io::IsTerminal;
use switch_args::{SwitchOutput, read_words};

// Whether a call with these words writes its packets to standard output. Refused words make no call.
fn writes_stdout(alloc: Global, words: &[String]) -> bool {
    match read_words(alloc, words) {
        Ok(settings) => {
            match &settings.output {
                SwitchOutput::File(name) => name.as_str().is_empty(),
                SwitchOutput::Drop => false,
            }
        }
        Err(_) => false,
    }
}

/// Whether a call of these words writes its packets to a terminal. The words are read once more where standard output is one, and
/// nowhere else.
pub(crate) fn is_to_terminal(rt: &HostRuntime, words: &[String]) -> bool {
    rt.stdout().is_terminal() && writes_stdout(rt.alloc(), words)
}
