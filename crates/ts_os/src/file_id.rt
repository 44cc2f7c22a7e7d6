//! Which regular file a name stands for, whatever the name: two names of one file have one device and one number.

ghost use Rattle.std.specs.Prelude.{◌↔◌, IsTrue};
ghost use Rattle.std.specs.Option.{is_some};
ghost use Rattle.std.specs.Fs.{IsFile, file_type};

use std::fs::Metadata;
use std::os::unix::fs::MetadataExt;

/// A regular file of the system, by its device and its number there.
#[derive(Clone, Copy, PartialEq, Drop)]
pub(crate) struct FileId {
    device: u64,
    number: u64,
}

impl FileId {
    /// The regular file that these facts describe; `None` for devices, pipes and directories. No clause says which file it is,
    /// since no clause of the library says which device and number the system gave.
    pub(crate) fn of(told: &Metadata) -> Option<FileId>
        ensures { IsTrue (is_some result) ↔ IsFile (file_type told.now) }
    {
        told.is_file().then_some(FileId {
            device: told.dev(),
            number: told.ino(),
        })
    }
}
