//! A file or the standard input, as a source.
ghost use Rattle.std.specs.Prelude.{◌≡◌, ◌<◌, ◌≤◌, [], length, take, IfOk, OnErr, IfSome};
ghost use Rattle.ts_outside.specs.Source.{read_failed, unread};
ghost use Rattle.ts_os.specs.Untold.{untold_source};

use crate::file_id::FileId;
use crate::file_kind::FileKind;
use crate::opened::Opened;
use crate::read_ahead::ReadAhead;
use crate::reason::Reason;
use std::alloc::{AllocError, Global};
use std::fs::{File, metadata};
use std::marker::Model;
use ts_outside::{Failed, Source, one_more};

/// How many bytes a source keeps of those that came first: five packets in each form of a file.
const HEAD_SIZE: usize = 1024;

/// A file or the standard input. Contracts see no content of it, only the count of its faults.
///
/// Each call asks the system once, for as many bytes as there is room for; or gives bytes that the system gave before, once
/// there is room to read ahead. A directory opens, and fails at its first read.
pub struct OsSource {
    pub(crate) from: Opened,
    pub(crate) kind: FileKind,
    pub(crate) file: Option<FileId>,

    /// What was read and not given yet, of what is no regular file.
    pub(crate) ahead: Option<ReadAhead>,
    pub(crate) faults: u64,

    /// Why the last read failed.
    pub(crate) reason: Option<Reason>,

    /// Which source of its desk it is, from 1 on.
    pub(crate) number: u64,

    /// The bytes that came first, by which the form of a file may be seen; contracts do not see them.
    pub(crate) head: Vec<u8>,
}

impl Model for OsSource {
    ghost use Rattle.std.specs.Prelude.{ℕ};

    ghost Value = { ℕ };

    ghost view = { λ s. s.faults };
}

impl OsSource {
    ghost use Rattle.std.specs.Prelude.{◌≡◌, IfOk};

    /// The source of a name, the standard input where it is empty, with this number.
    pub(crate) fn open(rt: &HostRuntime, named: &str, number: u64) -> Result<OsSource, Reason>
        ensures { IfOk result (λ s. s ≡ 0) }
    {
        let (from, told) = if named.is_empty() {
            let told = metadata(rt, "/dev/stdin");
            (Opened::Stream(rt.stdin()), told)
        } else {
            let file = match File::open(rt, named) {
                Ok(file) => file,
                Err(e) => return Err(Reason::of(e.kind())),
            };
            let told = file.metadata();
            (Opened::File(file), told)
        };
        Ok(OsSource {
            from,
            kind: FileKind::of(&told),
            file: told.ok().and_then(|it| FileId::of(&it)),
            ahead: None,
            faults: 0,
            reason: None,
            number,
            head: Vec::new(rt.alloc()),
        })
    }

    /// Takes room to read ahead, unless it is a regular file. Without it each read asks for what there is room for. `Err` means
    /// out of memory, and changes nothing.
    pub(crate) fn take_room(&mut self, alloc: Global) -> Result<(), AllocError>
        ensures { self.new ≡ self.old }
    {
        if self.kind != FileKind::Regular {
            self.ahead = Some(ReadAhead::new(alloc)?);
        }
        Ok(())
    }

    /// Ends the source, and returns why its last read failed, if one did.
    pub(crate) fn into_reason(self) -> Option<Reason> {
        let OsSource {
            from: _,
            kind: _,
            file: _,
            ahead: _,
            faults: _,
            reason,
            number: _,
            head: _,
        } = self;
        reason
    }

    /// Keeps the bytes that came first. If memory runs out, they are fewer.
    fn keep_head(&mut self, came: &[u8])
        ensures { self.new ≡ self.old }
    {
        if self.head.len() < HEAD_SIZE {
            let room = HEAD_SIZE - self.head.len();
            let kept = came.len().min(room);
            let _ = self.head.extend_from_slice(&came[..kept]);
        }
    }
}

impl Source for OsSource {
    ghost seen = { untold_source };

    fn read(&mut self, into: &mut [u8]) -> Result<usize, Failed>
        requires { 0 < length into.old }
        ensures within { IfOk result (λ n. n ≤ length into.new) }
        ensures moved { IfOk result (λ n. untold_source self.old ≡ unread (take n into.new) (untold_source self.new)) }
        ensures end { IfOk result (λ n. n ≡ 0 → IfSome (untold_source self.old).left (λ l. l ≡ [])) }
        ensures failed { OnErr result (untold_source self.new ≡ read_failed (untold_source self.old)) }
    {
        let moved = match &mut self.ahead {
            Some(ahead) => ahead.read(&mut self.from, into),
            None => self.from.read(into),
        };
        match moved {
            Ok(count) => {
                self.keep_head(&into[..count]);
                Ok(count)
            }
            Err(reason) => {
                self.reason = Some(reason);
                self.faults = one_more(self.faults);
                Err(Failed)
            }
        }
    }
}
