//! One call of the tool over a desk in memory.
use crate::inputs::Input;
use crate::trial_desk::filled_desk;
use std::alloc::{AllocError, Global};
use std::sync::Wait;
use std::thread::Threads;
use test_tools::DeskPlan;
use ts_outside::{Gate, MemoryDesk, OpenGate};
use tsp_top::{Status, serial_call, threaded_call, tsp_call};

/// A call to be made: the words, the input, and which calls of the desk fail.
#[derive(Clone, Copy)]
pub(crate) struct Case<'a> {
    pub(crate) words: &'a [String],
    pub(crate) input: Input,
    pub(crate) plan: DeskPlan,
}

/// The result of a call: its desk and its status. The desk is large, so it is boxed.
#[derive(Drop)]
pub(crate) struct Trial {
    pub(crate) desk: Box<MemoryDesk>,
    pub(crate) status: Status,
}

impl Trial {
    /// Whether two calls gave the same status, the same report, the same names asked for and the same first output under its name.
    /// No row has a second output.
    pub(crate) fn is_like(&self, alloc: Global, other: &Trial) -> Result<bool, AllocError> {
        if self.results() != other.results() {
            return Ok(false);
        }
        let status = self.status_text(alloc)?;
        Ok(status == other.status_text(alloc)?)
    }

    /// The status with its fields.
    fn status_text(&self, alloc: Global) -> Result<String, AllocError> {
        let status = &self.status;
        format!(in alloc; "{status:?}")
    }

    /// The numbers of names asked for and of outputs, the report, and the name and the bytes of the first output.
    fn results(&self) -> ((usize, usize), &[u8], (&str, &[u8])) {
        (
            (self.desk.asked_count(), self.desk.output_count()),
            self.desk.reported(),
            (self.written_name(), self.written()),
        )
    }

    /// The name of the first output.
    fn written_name(&self) -> &str {
        match self.desk.output(0) {
            Some((name, _)) => name,
            None => "",
        }
    }

    /// The bytes of the first output.
    pub(crate) fn written(&self) -> &[u8] {
        match self.desk.output(0) {
            Some((_, bytes)) => bytes,
            None => &[],
        }
    }
}

/// Calls the tool as the program does, by `tsp_call`, on a desk of its own.
pub(crate) fn by_tsp_call<R: Threads + Wait + Sync + AllocGlobal, G: Gate>(
    rt: &R,
    case: Case,
    gate: &G,
) -> Result<Trial, AllocError> {
    let mut desk = filled_desk(rt.alloc(), case.input, case.plan)?;
    let status = tsp_call(rt, rt.alloc(), case.words, &mut *desk, gate);
    Ok(Trial { desk, status })
}

/// Calls the tool by `threaded_call`, on a desk of its own: on one processor too each stage has a thread.
pub(crate) fn by_threaded_call<R: Threads + Wait + Sync + AllocGlobal, G: Gate>(
    rt: &R,
    case: Case,
    gate: &G,
) -> Result<Trial, AllocError> {
    let mut desk = filled_desk(rt.alloc(), case.input, case.plan)?;
    let status = threaded_call(rt, rt.alloc(), case.words, &mut *desk, gate);
    Ok(Trial { desk, status })
}

/// Calls the tool by `serial_call`, on a desk of its own.
pub(crate) fn by_serial_call<G: Gate>(
    alloc: Global,
    case: Case,
    gate: &G,
) -> Result<Trial, AllocError> {
    let mut desk = filled_desk(alloc, case.input, case.plan)?;
    let status = serial_call(alloc, case.words, &mut *desk, gate);
    Ok(Trial { desk, status })
}

/// The words of a text, which blanks separate.
pub(crate) fn words_of(alloc: Global, text: &str) -> Result<Vec<String>, AllocError> {
    let mut words = Vec::new(alloc);
    push_words(alloc, &mut words, text)?;
    Ok(words)
}

/// Appends the words of a text, which blanks separate, to others.
pub(crate) fn push_words(
    alloc: Global,
    words: &mut Vec<String>,
    text: &str,
) -> Result<(), AllocError> {
    for word in text.split(' ') {
        if !word.is_empty() {
            words.push(String::from_str(alloc, word)?)?;
        }
    }
    Ok(())
}
