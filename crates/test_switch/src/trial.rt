//! One call over a desk in memory.
use crate::files::files;
use crate::meeting::Meeting;
use crate::watched_desk::WatchedDesk;
use std::alloc::{AllocError, Global};
use std::sync::Wait;
use std::thread::Threads;
use switch_top::{SwitchStatus, switch_call};
use test_tools::DeskPlan;
use ts_outside::{MemoryDesk, OpenGate};

/// The result of a call: its desk and its status. The desk is large, so it is in a box.
#[derive(Drop)]
pub(crate) struct Trial<'a> {
    pub(crate) desk: Box<WatchedDesk<'a>>,
    pub(crate) status: SwitchStatus,
}

impl<'a> Trial<'a> {
    /// The whole report.
    pub(crate) fn reported(&self) -> &[u8] {
        self.desk.desk.reported()
    }

    /// How many names the desk was asked to open.
    pub(crate) fn asked_count(&self) -> usize {
        self.desk.desk.asked_count()
    }

    /// The name and the bytes of the output, if there is one.
    pub(crate) fn output(&self) -> Option<(&str, &[u8])> {
        self.desk.desk.output(0)
    }

    /// The bytes of the output.
    fn written(&self) -> &[u8] {
        match self.output() {
            Some((_, bytes)) => bytes,
            None => &[],
        }
    }

    /// The calls of the desk in order, and how many inputs were open at once.
    fn calls(&self) -> (&str, u64) {
        let steps = &self.desk.steps;
        (steps.text(), steps.most())
    }

    /// The report, whether there is an output, and its bytes.
    fn results(&self) -> (&[u8], bool, &[u8]) {
        (self.reported(), self.output().is_some(), self.written())
    }

    /// Whether two calls had the same status, report and output, and the same calls of the desk in the same order.
    pub(crate) fn is_like(&self, other: &Trial) -> bool {
        self.status == other.status
            && self.results() == other.results()
            && self.calls() == other.calls()
    }
}

/// A desk with the files and this plan.
fn filled_desk<'a>(
    alloc: Global,
    plan: DeskPlan,
    meeting: Option<&'a Meeting>,
) -> Result<Box<WatchedDesk<'a>>, AllocError> {
    let files = files(alloc)?;
    let plan = plan.fail_plan(alloc)?;
    let desk = MemoryDesk::new(alloc, files, plan)?;
    Ok(Box::new(alloc, WatchedDesk::new(alloc, desk, meeting))?)
}

/// Calls `switch_call` on a desk of its own.
pub(crate) fn called<'a, R: Threads + Wait + Sync + AllocGlobal>(
    rt: &R,
    words: &[String],
    plan: DeskPlan,
    meeting: Option<&'a Meeting>,
) -> Result<Trial<'a>, AllocError> {
    let mut desk = filled_desk(rt.alloc(), plan, meeting)?;
    let status = switch_call(rt, rt.alloc(), words, &mut *desk, &OpenGate);
    Ok(Trial { desk, status })
}

/// The words of two texts.
pub(crate) fn words_with(
    alloc: Global,
    first: &str,
    text: &str,
) -> Result<Vec<String>, AllocError> {
    let mut words = Vec::new(alloc);
    push_words(alloc, &mut words, first)?;
    push_words(alloc, &mut words, text)?;
    Ok(words)
}

/// Calls `switch_call` with the words of two texts.
pub(crate) fn played<'a, R: Threads + Wait + Sync + AllocGlobal>(
    rt: &R,
    first: &str,
    text: &str,
    plan: DeskPlan,
    meeting: Option<&'a Meeting>,
) -> Result<Trial<'a>, AllocError> {
    let words = words_with(rt.alloc(), first, text)?;
    called(rt, words.as_slice(), plan, meeting)
}

/// Appends the words of a text, separated by blanks. The word `''` is the empty one.
pub(crate) fn push_words(
    alloc: Global,
    words: &mut Vec<String>,
    text: &str,
) -> Result<(), AllocError> {
    for word in text.split(' ') {
        if !word.is_empty() {
            let word = if word == "''" { "" } else { word };
            words.push(String::from_str(alloc, word)?)?;
        }
    }
    Ok(())
}
