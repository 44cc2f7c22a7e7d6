//! How a desk opens its inputs, and which files it protects.
ghost use Rattle.std.specs.Prelude.{◌≡◌, ◌<◌, length, vec_len, vec_capacity, IfOk, OnOk, OnErr};
ghost use Rattle.ts_outside.specs.OpenFault.{MatchOpen};

use crate::file_id::FileId;
use crate::open_files::OpenFiles;
use crate::os_source::OsSource;
use crate::reason::Reason;
use std::alloc::{AllocError, Global};
use std::fs::metadata;
use ts_outside::{NameText, OpenFault};

/// The source of a name that may be opened as an input, with this number.
pub(crate) fn open_input(
    rt: &HostRuntime,
    files: &mut OpenFiles,
    named: &str,
    number: u64,
) -> Result<OsSource, Reason>
    requires { vec_len files.old.inputs < vec_capacity files.old.inputs }
    ensures { IfOk result (λ s. s ≡ 0) }
{
    let source = OsSource::open(rt, named, number)?;
    if let Some(id) = source.file {
        if !files.may_read(id) {
            source.into_reason();
            return Err(Reason::InUse);
        }
        files.read_from(id);
    }
    Ok(source)
}

/// The same source with room to read ahead, unless it is a regular file; where there is no memory for that, it is ended.
pub(crate) fn with_room(alloc: Global, mut source: OsSource) -> Result<OsSource, OpenFault>
    ensures { MatchOpen result (λ s. s ≡ source) ⊥ (Unit {0}) }
{
    match source.take_room(alloc) {
        Ok(()) => Ok(source),
        Err(_) => {
            source.into_reason();
            Err(OpenFault::NoMemory)
        }
    }
}

/// Protects, for each of these names, the file that the system answers for it.
pub(crate) fn protect_named(
    rt: &HostRuntime,
    files: &mut OpenFiles,
    names: &[NameText],
) -> Result<(), AllocError>
    ensures each { OnOk result (length files.new.protected.items ≡ length names.now) }
    ensures failed { OnErr result (files.new ≡ files.old) }
    ensures inputs { files.new.inputs ≡ files.old.inputs }
    ensures outputs { files.new.outputs ≡ files.old.outputs }
{
    let mut answers = Vec::new(rt.alloc());
    for name in names {
        answers.push(regular(rt, name.as_str()))?;
    }
    files.protect(answers);
    Ok(())
}

/// The regular file of a name; `None` where there is none.
fn regular(rt: &HostRuntime, named: &str) -> Option<FileId> {
    FileId::of(&metadata(rt, named).ok()?)
}
