//! A desk that records its calls.
use crate::meeting::Meeting;
use crate::steps::Steps;
use crate::watched_source::WatchedSource;
use std::alloc::{AllocError, Global};
use ts_outside::{Desk, Failed, FileBytes, FileFault, MemoryDesk, MemorySink, OpenFault};

/// A desk in memory that records the order in which names are opened and closed, and whose inputs may have to meet.
#[derive(Drop)]
pub(crate) struct WatchedDesk<'a> {
    pub(crate) desk: MemoryDesk,
    pub(crate) steps: Steps,
    alloc: Global,
    meeting: Option<&'a Meeting>,
    /// How many inputs were opened.
    opened: u64,
}

impl<'a> WatchedDesk<'a> {
    /// A desk without calls so far.
    pub(crate) fn new(
        alloc: Global,
        desk: MemoryDesk,
        meeting: Option<&'a Meeting>,
    ) -> WatchedDesk<'a> {
        WatchedDesk {
            desk,
            steps: Steps::none(String::new(alloc)),
            alloc,
            meeting,
            opened: 0,
        }
    }
}

/// The text of a name; the empty text for none.
fn text_of(alloc: Global, name: Option<&str>) -> Result<String, AllocError> {
    match name {
        Some(name) => String::from_str(alloc, name),
        None => Ok(String::new(alloc)),
    }
}

impl<'a> Desk for WatchedDesk<'a> {
    ghost use Rattle.ts_outside.specs.Memory.{desk_seen};

    type In = WatchedSource<'a>;

    type Out = MemorySink;

    ghost seen = { λ d. desk_seen d.desk };

    fn open_in(&mut self, name: Option<&str>) -> Result<WatchedSource<'a>, OpenFault> {
        let text = text_of(self.alloc, name)?;
        match self.desk.open_in(name) {
            Ok(source) => {
                self.steps.opens(text.as_str());
                self.steps.enters();
                self.opened = self.opened.wrapping_add(1);
                Ok(WatchedSource {
                    source,
                    name: text,
                    meeting: self.meeting,
                    number: self.opened,
                    reads: 0,
                })
            }
            Err(fault) => {
                self.steps.misses(text.as_str());
                Err(fault)
            }
        }
    }

    fn open_out(&mut self, name: Option<&str>) -> Result<MemorySink, OpenFault> {
        let text = name.unwrap_or("");
        match self.desk.open_out(name) {
            Ok(sink) => {
                self.steps.opens(text);
                Ok(sink)
            }
            Err(fault) => {
                self.steps.misses(text);
                Err(fault)
            }
        }
    }

    fn close_in(&mut self, input: WatchedSource<'a>) {
        let WatchedSource {
            source,
            name,
            meeting: _,
            number: _,
            reads: _,
        } = input;
        self.steps.closes(name.as_str());
        self.desk.close_in(source);
    }

    fn close_out(&mut self, output: MemorySink) -> Result<(), Failed> {
        self.steps.closes_output();
        self.desk.close_out(output)
    }

    fn read_file(&mut self, name: Option<&str>, most: usize) -> Result<FileBytes, FileFault> {
        self.desk.read_file(name, most)
    }

    fn report(&mut self, piece: &[u8]) -> Result<usize, Failed> {
        self.desk.report(piece)
    }
}
