//! The status of a call of `tstabcomp`.
ghost use Rattle.std.specs.Prelude.{◌≡◌};
ghost use Rattle.tabcomp_top.specs.StatusText.{exit_number, line_of};

use tabcomp_core::{CompileFault, DecompileFault};

/// How a call of `tstabcomp` ended.
#[derive(Debug, Drop)]
pub enum TabStatus {
    /// The input was converted, and the whole result was written.
    Done,
    /// Out of memory. Nothing was written.
    NoMemory,
    /// The words are not a command line: this word, from 0, is the first that breaks the form; it is 0 where there is
    /// no word. Nothing was read.
    Words { word: usize },
    /// The input was not read.
    ReadFault,
    /// The output was not opened, or writing or closing it failed. A first part of it may have been
    /// written.
    WriteFault,
    /// The text was read, and has no sections.
    Compile(CompileFault),
    /// The bytes were read, and are not the sections of tables.
    Decompile(DecompileFault),
    /// The input is longer than 16,777,216 bytes.
    TooMany,
}

impl TabStatus {
    /// The program's exit status.
    pub fn exit_code(&self) -> u8
        ensures { result ≡ exit_number self.now }
    {
        match self {
            TabStatus::Done => 0,
            TabStatus::NoMemory => 1,
            TabStatus::Words { .. } => 2,
            TabStatus::ReadFault => 3,
            TabStatus::WriteFault => 4,
            TabStatus::Compile(_) => 5,
            TabStatus::Decompile(_) => 6,
            TabStatus::TooMany => 7,
        }
    }

    /// The line that is reported; empty where all was written, and where memory ran out.
    pub(crate) fn line(&self) -> &'static str
        ensures { result.now ≡ line_of self.now }
    {
        match self {
            TabStatus::Done | TabStatus::NoMemory => "",
            TabStatus::Words { .. } => "tstabcomp: words\n",
            TabStatus::ReadFault => "tstabcomp: cannot read\n",
            TabStatus::WriteFault => "tstabcomp: cannot write\n",
            TabStatus::Compile(_) => "tstabcomp: no compilation\n",
            TabStatus::Decompile(_) => "tstabcomp: not sections\n",
            TabStatus::TooMany => "tstabcomp: input too long\n",
        }
    }
}
