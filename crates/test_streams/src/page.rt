//! The text of one PID, which is printed at once.

use std::alloc::Global;
use std::fmt::{Debug, Display};
use std::io;
use test_tools::Page;
use ts_table_rows::{TableFault, TableRefusal};

/// The lines of one PID, each of which begins with its number.
#[derive(Drop)]
pub struct PidPage {
    alloc: Global,
    pid: u16,
    page: Page,
}

impl PidPage {
    /// The page of a PID, without lines.
    pub fn new(alloc: Global, pid: u16) -> PidPage {
        PidPage {
            alloc,
            pid,
            page: Page::new(alloc),
        }
    }

    /// The memory of the page.
    pub fn alloc(&self) -> Global {
        self.alloc
    }

    /// Prints all lines. Where memory ended before, nothing is printed, and the error tells it.
    pub fn print(&self, rt: &impl Print) -> io::Result<()> {
        self.page.print(rt)
    }

    /// Appends a text.
    pub fn text(&mut self, text: &str) {
        self.page.text(text);
    }

    /// Appends a fault, and ends the line.
    fn fault(&mut self, fault: &impl Debug) {
        self.page.add(format_args!(": {fault:?}\n"));
    }

    /// Begins a line.
    pub fn begin(&mut self, what: &str) {
        let pid = self.pid;
        self.text("pid");
        self.value(&pid);
        self.text(" ");
        self.text(what);
    }

    /// Appends a value after a blank.
    pub fn value(&mut self, value: &impl Display) {
        self.page.add(format_args!(" {value}"));
    }

    /// Appends a value with its name.
    pub fn field(&mut self, name: &str, value: &impl Display) {
        self.text(" ");
        self.text(name);
        self.value(value);
    }

    /// Appends bytes as hexadecimal digits after a blank.
    pub fn bytes(&mut self, bytes: &[u8]) {
        self.text(" ");
        for byte in bytes {
            self.page.byte(*byte);
        }
    }

    /// Ends a line.
    pub fn end(&mut self) {
        self.text("\n");
    }

    /// Appends a line without values.
    pub fn line(&mut self, what: &str) {
        self.begin(what);
        self.end();
    }

    /// Appends a line of two numbers with their names.
    pub fn pair(&mut self, first: &str, one: u16, second: &str, other: u16) {
        self.begin(first);
        self.value(&one);
        self.field(second, &other);
        self.end();
    }

    /// Appends a line on a byte of a section that differs when it is written back.
    pub fn other_byte(&mut self, place: usize, at: usize, was: u8, now: u8) {
        self.begin("section");
        self.value(&place);
        self.field("byte", &at);
        self.text(" was ");
        self.page.byte(was);
        self.text(" written ");
        self.page.byte(now);
        self.end();
    }

    /// Begins the line of a table that was read.
    pub fn head(&mut self, table: &str, version: u8, current: bool) {
        self.begin(table);
        self.field("version", &version);
        self.field("current", &current);
    }

    /// Appends that a table was not read.
    pub fn not_read(&mut self, table: &str, fault: TableFault) {
        self.begin("no ");
        self.text(table);
        self.fault(&fault);
    }

    /// Appends that a table was not written.
    pub fn not_written(&mut self, refusal: TableRefusal) {
        self.begin("not written");
        self.fault(&refusal);
    }
}
