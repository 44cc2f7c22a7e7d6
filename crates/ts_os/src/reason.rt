//! Why the system refused a call.
use std::io::ErrorKind;

/// Why the system refused a call, as far as a user can do something about it.
#[derive(Clone, Copy, Drop)]
pub enum Reason {
    Absent,
    Forbidden,
    Directory,
    Full,
    ClosedPipe,
    /// The file is open otherwise, or is to be read.
    InUse,
    Other,
}

impl Reason {
    /// The reason of a kind of error.
    pub(crate) fn of(kind: ErrorKind) -> Reason {
        match kind {
            ErrorKind::NotFound | ErrorKind::NotADirectory => Reason::Absent,
            ErrorKind::PermissionDenied | ErrorKind::ReadOnlyFilesystem => Reason::Forbidden,
            ErrorKind::IsADirectory => Reason::Directory,
            ErrorKind::StorageFull | ErrorKind::QuotaExceeded | ErrorKind::FileTooLarge => {
                Reason::Full
            }
            ErrorKind::BrokenPipe => Reason::ClosedPipe,
            _ => Reason::Other,
        }
    }

    /// Its words in a report.
    pub fn text(self) -> &'static str {
        match self {
            Reason::Absent => "no such file or directory",
            Reason::Forbidden => "permission denied",
            Reason::Directory => "is a directory",
            Reason::Full => "no space left on the device, or the file may not grow further",
            Reason::ClosedPipe => "the reader closed the pipe",
            Reason::InUse => "it is both read and written in this run",
            Reason::Other => "the system refused it",
        }
    }
}
