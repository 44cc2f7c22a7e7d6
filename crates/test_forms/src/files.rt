//! The files and desks of the rows.
ghost use Rattle.std.specs.Prelude.{◌<◌};

use std::alloc::{AllocError, Global};
use ts_outside::{
    FailPlan, FileBytes, FileList, MemoryDesk, NameText, NumberList, PreallocatedDesk,
};

/// So many bytes: byte number n is n modulo 251.
fn bytes_of(alloc: Global, size: usize) -> Result<Vec<u8>, AllocError> {
    let mut bytes = vec![in alloc; 0u8; size]?;
    for (number, byte) in bytes.iter_mut().enumerate() {
        *byte = (number % 251) as u8;
    }
    Ok(bytes)
}

/// One file `a` of this size.
fn files(alloc: Global, size: usize) -> Result<FileList, AllocError> {
    let name = NameText::of(String::from_str(alloc, "a")?);
    let bytes = FileBytes::of(bytes_of(alloc, size)?);
    Ok(FileList::of(vec![in alloc; (name, bytes)]?))
}

/// A desk with that file at which nothing fails.
pub(crate) fn preallocated_desk(
    alloc: Global,
    size: usize,
) -> Result<PreallocatedDesk, AllocError> {
    PreallocatedDesk::new(alloc, files(alloc, size)?)
}

/// A desk at which a read moves at most this number of bytes, and the reads with these numbers, from 1, fail.
pub(crate) fn slow_desk(
    alloc: Global,
    size: usize,
    piece: usize,
    failing: &[u64],
) -> Result<MemoryDesk, AllocError>
    requires { 0 < piece }
{
    let reads = NumberList::of(Vec::from_slice(alloc, failing)?);
    // The plan, which is large, is made last: nothing can fail while it is held.
    let files = files(alloc, size)?;
    let mut plan = FailPlan::none(alloc, piece, 1, 0);
    plan.reads = reads;
    MemoryDesk::new(alloc, files, plan)
}
