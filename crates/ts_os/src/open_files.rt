//! Which regular files are open, so that none is read and written at once.
ghost use Rattle.std.specs.Prelude.{◌≡◌};
ghost use Rattle.ts_os.specs.OpenFiles.{is_output, asked_for};

use crate::file_id::FileId;
use std::alloc::{AllocError, Global};

/// A regular file that is open as an output.
#[derive(Clone, Copy, Drop)]
pub(crate) struct OpenOutput {
    file: FileId,

    /// It was asked for as an input, and refused.
    wanted: bool,
}

/// The regular files that are open, and those that are protected from being written.
///
/// A file that is open as an input, or protected, may not be opened as an output: it would be emptied before it was read. Nor
/// may a file that is open as an output be opened as an input.
#[derive(Drop)]
pub(crate) struct OpenFiles {
    inputs: Vec<FileId>,
    outputs: Vec<OpenOutput>,

    /// The regular files of the protected names; `None` where a name has none.
    protected: Vec<Option<FileId>>,
}

impl OpenFiles {
    ghost use Rattle.std.specs.Prelude.{◌≡◌, ◌<◌, ◌∷◌, ◌++◌, [], vec_len, vec_capacity, OnOk, false};
    ghost use Rattle.ts_os.specs.OpenFiles.{may_read, may_write, asked_for, was_asked_for, without_input, without_output};

    /// No file is open, and none is protected. It allocates nothing.
    pub(crate) fn new(alloc: Global) -> OpenFiles
        ensures inputs { result.inputs.items ≡ [] }
        ensures outputs { result.outputs.items ≡ [] }
        ensures protected { result.protected.items ≡ [] }
    {
        OpenFiles {
            inputs: Vec::new(alloc),
            outputs: Vec::new(alloc),
            protected: Vec::new(alloc),
        }
    }

    /// From now on these files, and no others, are protected: those of the protected names, `None` where a name has none.
    pub(crate) fn protect(&mut self, files: Vec<Option<FileId>>)
        ensures { self.new ≡ record self.old { protected = files } }
    {
        self.protected = files;
    }

    /// Takes room for one more input, so that `read_from` takes no memory.
    pub(crate) fn reserve_input(&mut self) -> Result<(), AllocError>
        ensures room { OnOk result (vec_len self.new.inputs < vec_capacity self.new.inputs) }
        ensures inputs { self.new.inputs.items ≡ self.old.inputs.items }
        ensures outputs { self.new.outputs ≡ self.old.outputs }
        ensures protected { self.new.protected ≡ self.old.protected }
    {
        self.inputs.reserve(1)
    }

    /// Takes room for one more output, so that `written_to` takes no memory.
    pub(crate) fn reserve_output(&mut self) -> Result<(), AllocError>
        ensures room { OnOk result (vec_len self.new.outputs < vec_capacity self.new.outputs) }
        ensures inputs { self.new.inputs ≡ self.old.inputs }
        ensures outputs { self.new.outputs.items ≡ self.old.outputs.items }
        ensures protected { self.new.protected ≡ self.old.protected }
    {
        self.outputs.reserve(1)
    }

    /// Whether a file may be opened as an input. Where it may not, since it is open as an output, it is noted there that it was
    /// asked for.
    pub(crate) fn may_read(&mut self, asked: FileId) -> bool
        ensures may { result ≡ may_read self.old asked }
        ensures noted { self.new.outputs.items ≡ asked_for asked self.old.outputs.items }
        ensures inputs { self.new.inputs ≡ self.old.inputs }
        ensures protected { self.new.protected ≡ self.old.protected }
    {
        let may = !is_output(&self.outputs, asked);
        note_wanted(&mut self.outputs, asked);
        may
    }

    /// Whether a file may be opened as an output.
    pub(crate) fn may_write(&self, asked: FileId) -> bool
        ensures { result ≡ may_write self.now asked }
    {
        !self.inputs.contains(&asked) && !self.protected.contains(&Some(asked))
    }

    /// Notes that a file was opened as an input. A file may be open as several of them.
    pub(crate) fn read_from(&mut self, opened: FileId)
        requires { vec_len self.old.inputs < vec_capacity self.old.inputs }
        ensures inputs { self.new.inputs.items ≡ self.old.inputs.items ++ opened ∷ [] }
        ensures outputs { self.new.outputs ≡ self.old.outputs }
        ensures protected { self.new.protected ≡ self.old.protected }
    {
        self.inputs.push_reserved(opened);
    }

    /// Notes that a file was opened as an output.
    pub(crate) fn written_to(&mut self, opened: FileId)
        requires { vec_len self.old.outputs < vec_capacity self.old.outputs }
        ensures inputs { self.new.inputs ≡ self.old.inputs }
        ensures outputs { self.new.outputs.items ≡ self.old.outputs.items ++ record { file = opened; wanted = false } ∷ [] }
        ensures protected { self.new.protected ≡ self.old.protected }
    {
        self.outputs.push_reserved(OpenOutput {
            file: opened,
            wanted: false,
        });
    }

    /// Notes that an input of a file was closed: it is no longer open as one of those that it was open as.
    pub(crate) fn closed_in(&mut self, closed: FileId)
        ensures inputs { self.new.inputs.items ≡ without_input closed self.old.inputs.items }
        ensures outputs { self.new.outputs ≡ self.old.outputs }
        ensures protected { self.new.protected ≡ self.old.protected }
    {
        if let Some(at) = self.inputs.iter().position(|it| *it == closed) {
            self.inputs.remove(at);
        }
    }

    /// Notes that the output of a file was closed. Returns whether it was asked for as an input.
    pub(crate) fn closed_out(&mut self, closed: FileId) -> bool
        ensures asked { result ≡ was_asked_for closed self.old.outputs.items }
        ensures inputs { self.new.inputs ≡ self.old.inputs }
        ensures outputs { self.new.outputs.items ≡ without_output closed self.old.outputs.items }
        ensures protected { self.new.protected ≡ self.old.protected }
    {
        match self.outputs.iter().position(|it| it.file == closed) {
            Some(at) => self.outputs.remove(at).wanted,
            None => false,
        }
    }
}

// Whether a file is open as an output.
fn is_output(outputs: &[OpenOutput], asked: FileId) -> bool
    ensures { result ≡ is_output outputs.now asked }
{
    outputs.iter().any(|output| output.file == asked)
}

// Notes of the output of a file that this was asked for as an input.
fn note_wanted(outputs: &mut [OpenOutput], asked: FileId)
    ensures { outputs.new ≡ asked_for asked outputs.old }
{
    for output in outputs.iter_mut() {
        output.wanted |= output.file == asked;
    }
}
