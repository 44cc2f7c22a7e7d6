//! What a desk notes of the calls that the system refused, so that a run can be explained. No clause speaks of it.
use crate::reason::Reason;
use crate::trouble::Trouble;
use std::alloc::Global;
use ts_outside::{Purpose, one_more};

/// What a desk noted: the call that failed, and bytes by which the fault can be recognized.
#[derive(Drop)]
pub struct Noted {
    alloc: Global,

    /// How many inputs and how many files were asked for.
    inputs_asked: u64,
    files_asked: u64,
    trouble: Option<Trouble>,
    head: Vec<u8>,
    keeps_file: bool,
    file: Option<Vec<u8>>,
}

impl Noted {
    /// Nothing is noted. It allocates nothing.
    pub(crate) fn new(alloc: Global) -> Noted {
        Noted {
            alloc,
            inputs_asked: 0,
            files_asked: 0,
            trouble: None,
            head: Vec::new(alloc),
            keeps_file: false,
            file: None,
        }
    }

    /// The last call for an input, an output or a file that failed, where one did; of several inputs the first.
    pub fn trouble(&self) -> Option<Trouble> {
        self.trouble
    }

    /// The first bytes of the input that was closed last.
    pub fn head(&self) -> &[u8] {
        self.head.as_slice()
    }

    /// The bytes of the file that was read last, where these are kept.
    pub fn file(&self) -> Option<&[u8]> {
        match &self.file {
            Some(bytes) => Some(bytes.as_slice()),
            None => None,
        }
    }

    /// From now on the bytes of the file that was read last are kept.
    pub(crate) fn keep_file(&mut self) {
        self.keeps_file = true;
    }

    /// The number of the next input, from 1 on.
    pub(crate) fn next_input(&mut self) -> u64 {
        self.inputs_asked = one_more(self.inputs_asked);
        self.inputs_asked
    }

    /// The number of the next file, from 1 on.
    pub(crate) fn next_file(&mut self) -> u64 {
        self.files_asked = one_more(self.files_asked);
        self.files_asked
    }

    /// Keeps why a call failed. Of inputs the first one stays, since it is the one by which a run ends.
    pub(crate) fn note(&mut self, purpose: Purpose, number: u64, reason: Reason) {
        if let (Purpose::Input, Some(first)) = (purpose, self.trouble) {
            if is_earlier(first, number) {
                return;
            }
        }
        self.trouble = Some(Trouble {
            purpose,
            number,
            reason,
        });
    }

    /// Keeps why a call failed, if it did.
    pub(crate) fn note_if(&mut self, purpose: Purpose, number: u64, reason: Option<Reason>) {
        if let Some(reason) = reason {
            self.note(purpose, number, reason);
        }
    }

    /// Keeps the first bytes of an input.
    pub(crate) fn note_head(&mut self, head: Vec<u8>) {
        self.head = head;
    }

    /// Keeps the bytes of a file, where that is asked for. If memory runs out, none are.
    pub(crate) fn note_file(&mut self, bytes: &[u8]) {
        self.file = None;
        if self.keeps_file {
            self.file = Vec::from_slice(self.alloc, bytes).ok();
        }
    }
}

// Whether this is an input before the one of this number.
fn is_earlier(first: Trouble, number: u64) -> bool {
    match first.purpose {
        Purpose::Input => first.number < number,
        Purpose::Output | Purpose::File => false,
    }
}
