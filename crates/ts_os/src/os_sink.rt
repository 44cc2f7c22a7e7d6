//! A file or the standard output, as a sink.
ghost use Rattle.std.specs.Prelude.{◌≡◌, ◌<◌, ◌≤◌, length, take, IfOk, OnErr};
ghost use Rattle.ts_outside.specs.Sink.{took, write_failed};
ghost use Rattle.ts_packet.specs.declared.numbers.TheConstants.{PACKET_SIZE};
ghost use Rattle.ts_os.specs.Untold.{untold_sink};

use crate::calls::write_some;
use crate::file_id::FileId;
use crate::file_kind::FileKind;
use crate::open_files::OpenFiles;
use crate::reason::Reason;
use std::fs::{File, OpenOptions, metadata};
use std::io::Stdout;
use std::marker::Model;
use ts_outside::{Failed, Sink, one_more};
use ts_packet::PACKET_SIZE;

/// Where a sink writes.
#[derive(Drop)]
pub(crate) enum Made {
    File(File),
    Stream(Stdout),
}

impl Made {
    /// Empties a file. Returns whether that went well.
    pub(crate) fn empty(&self) -> bool {
        match self {
            Made::File(file) => file.set_len(0).is_ok(),
            Made::Stream(_) => true,
        }
    }
}

/// A file or the standard output. Contracts see no content of it, only the count of its faults.
///
/// Each call gives the system one piece, or of a longer one as many packets as its kind of file is given at once. A call that
/// takes nothing of a piece is a fault. A regular file keeps what it had until the first write, or until it is closed.
pub struct OsSink {
    pub(crate) to: Made,
    pub(crate) kind: FileKind,

    /// How many bytes were taken of the packet of which some were and some were not; 0 between packets.
    pub(crate) begun: usize,

    /// The regular file that this is.
    pub(crate) file: Option<FileId>,

    /// It still has what it had before.
    pub(crate) full: bool,
    pub(crate) faults: u64,

    /// Why the last write failed.
    pub(crate) reason: Option<Reason>,
    ghost in_packet: { begun < PACKET_SIZE },
}

impl Model for OsSink {
    ghost use Rattle.std.specs.Prelude.{ℕ};

    ghost Value = { ℕ };

    ghost view = { λ s. s.faults };
}

impl OsSink {
    ghost use Rattle.std.specs.Prelude.{◌≡◌, ◌<◌, ◌≤◌, length, IfOk};

    /// The sink of a name, the standard output where it is empty; a file is made if it is absent. A regular file that may not
    /// be written beside those that are open is left as it is.
    pub(crate) fn open(rt: &HostRuntime, named: &str, files: &OpenFiles) -> Result<OsSink, Reason>
        ensures { IfOk result (λ s. s ≡ 0) }
    {
        if named.is_empty() {
            return Ok(OsSink {
                to: Made::Stream(rt.stdout()),
                kind: FileKind::of(&metadata(rt, "/dev/stdout")),
                begun: 0,
                file: None,
                full: false,
                faults: 0,
                reason: None,
            });
        }
        let (made, kind, file) = open_file(rt, named, files)?;
        Ok(OsSink {
            to: Made::File(made),
            kind,
            begun: 0,
            file,
            full: file.is_some(),
            faults: 0,
            reason: None,
        })
    }

    /// Empties the file, unless that was done. Returns whether that went well.
    fn empty(&mut self) -> bool
        ensures { self.new ≡ self.old }
    {
        if self.full {
            self.full = !self.to.empty();
        }
        !self.full
    }

    /// Gives the system a piece, or the packets of it that it is given at once. Returns the reason if it took nothing, or if the
    /// file could not be emptied.
    fn give(&mut self, piece: &[u8]) -> Result<usize, Reason>
        requires { 0 < length piece.now }
        ensures some { IfOk result (λ n. 0 < n) }
        ensures within { IfOk result (λ n. n ≤ length piece.now) }
        ensures same { self.new ≡ self.old }
    {
        if !self.empty() {
            return Err(Reason::Other);
        }
        let given = &piece[..self.kind.bytes_at_once(self.begun, piece.len())];
        let count = match &mut self.to {
            Made::File(file) => write_some(file, given)?,
            Made::Stream(stream) => write_some(stream, given)?,
        };
        self.begun = (self.begun + count) % PACKET_SIZE;
        Ok(count)
    }
}

// The file of a name, made if it is absent, of what kind it is, and which regular file.
fn open_file(
    rt: &HostRuntime,
    named: &str,
    files: &OpenFiles,
) -> Result<(File, FileKind, Option<FileId>), Reason> {
    let file = OpenOptions::new()
        .write(true)
        .create(true)
        .open(rt, named)
        .map_err(|e| Reason::of(e.kind()))?;
    let told = file.metadata();
    let kind = FileKind::of(&told);
    let id = FileId::of(&told.map_err(|e| Reason::of(e.kind()))?);
    if let Some(id) = id {
        if !files.may_write(id) {
            return Err(Reason::InUse);
        }
    }
    Ok((file, kind, id))
}

impl Sink for OsSink {
    ghost seen = { untold_sink };

    fn write(&mut self, piece: &[u8]) -> Result<usize, Failed>
        requires { 0 < length piece.now }
        ensures some { IfOk result (λ n. 0 < n) }
        ensures within { IfOk result (λ n. n ≤ length piece.now) }
        ensures taken { IfOk result (λ n. untold_sink self.new ≡ took (untold_sink self.old) (take n piece.now)) }
        ensures failed { OnErr result (untold_sink self.new ≡ write_failed (untold_sink self.old)) }
    {
        match self.give(piece) {
            Ok(count) => Ok(count),
            Err(reason) => {
                self.reason = Some(reason);
                self.faults = one_more(self.faults);
                Err(Failed)
            }
        }
    }
}
