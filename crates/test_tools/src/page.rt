//! Text that is printed at once.
use std::alloc::{AllocError, Global};
use std::fmt::{Display, Write};
use std::io;

/// A text. What appends to it has no result, so that nothing has to be let go on the way: once memory has ended, the
/// text is not printed any more.
#[derive(Drop)]
pub struct Page {
    text: String,
    state: Result<(), AllocError>,
}

impl Page {
    /// The empty text.
    pub fn new(alloc: Global) -> Page {
        Page {
            text: String::new(alloc),
            state: Ok(()),
        }
    }

    /// Appends a text.
    pub fn text(&mut self, text: &str) {
        let wrote = self.text.push_str(text);
        self.keep(wrote);
    }

    /// Appends a value.
    pub fn add<D: Display + Drop>(&mut self, value: D) {
        let wrote = write!(self.text, "{value}");
        self.keep(wrote);
    }

    /// Appends a byte as two hexadecimal digits.
    pub fn byte(&mut self, byte: u8) {
        let wrote = write!(self.text, "{byte:02x}");
        self.keep(wrote);
    }

    /// Keeps that memory has ended.
    fn keep(&mut self, wrote: Result<(), AllocError>) {
        if wrote.is_err() {
            self.state = wrote;
        }
    }

    /// Prints the text. Where memory ended before, nothing is printed, and the error tells it.
    pub fn print(&self, rt: &impl Print) -> io::Result<()> {
        self.state?;
        rt.print(self.text.as_str())
    }
}
