//! Whether packets would go to a terminal.
use chain_args::{OutputConf, plan};
use std::alloc::Global;
use std::io::IsTerminal;

// Whether a run of these words writes its packets to standard output. Refused words make no run.
fn writes_stdout(alloc: Global, words: &[String]) -> bool {
    match plan(alloc, words) {
        Ok(plan) => {
            match &plan.output {
                OutputConf::File(name) => name.as_str().is_empty(),
                OutputConf::Drop => false,
            }
        }
        Err(_) => false,
    }
}

/// Whether a run of these words writes its packets to a terminal. The words are read once more where standard output is one, and
/// nowhere else.
pub(crate) fn is_to_terminal(rt: &HostRuntime, words: &[String]) -> bool {
    rt.stdout().is_terminal() && writes_stdout(rt.alloc(), words)
}
