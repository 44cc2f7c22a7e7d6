//! The top call of `tstabcomp`: it reads the words and the input, converts it and writes the output.
ghost use Rattle.std.specs.Prelude.{◌≡◌, map};
ghost use Rattle.std.specs.String.{string_bytes};
ghost use Rattle.ts_outside.specs.Desk.{DeskView};
ghost use Rattle.tabcomp_top.specs.TabCall.{CallsTab, DoesJob, IsRead, asked_input};
ghost use Rattle.tabcomp_top.specs.TabWords.{meant};

use crate::conversion::convert;
use crate::job::{Job, read_words};
use crate::putting::put;
use crate::status::TabStatus;
use crate::telling::tell;
use std::alloc::Global;
use tabcomp_core::MOST_BYTES;
use ts_outside::{Desk, FileFault};

/// Converts bytes that were read, and writes the result.
fn convert_and_put<D: Desk>(alloc: Global, job: Job<'_>, desk: &mut D, bytes: &[u8]) -> TabStatus
    ensures { (old : DeskView) → IsRead (meant job.entry) old bytes.now
        → D.seen desk.old ≡ asked_input (meant job.entry) old
        → DoesJob (meant job.entry) old (D.seen desk.new) result }
{
    match convert(alloc, job.task, bytes) {
        Ok(text) => put(desk, job.output, &text),
        Err(status) => status,
    }
}

/// Reads the input, converts it, and writes the result.
fn do_job<D: Desk>(alloc: Global, job: Job<'_>, desk: &mut D) -> TabStatus
    ensures { DoesJob (meant job.entry) (D.seen desk.old) (D.seen desk.new) result }
{
    match desk.read_file(Some(job.input), MOST_BYTES) {
        Ok(bytes) => convert_and_put(alloc, job, desk, bytes.as_slice()),
        Err(FileFault::Failed) => TabStatus::ReadFault,
        Err(FileFault::TooMany) => TabStatus::TooMany,
        Err(FileFault::NoMemory) => TabStatus::NoMemory,
    }
}

/// Does what the words of a command line, without the program's name, ask for.
///
/// The words are a task, `--compile`, `--decompile` or `--canonical`, and then at most two names, that of the
/// input and that of the output. Any word is a name there; an absent or empty one is the standard stream. The
/// input is read whole and converted, and only then is the output opened, written and closed. The statuses
/// come in this order: `Words`; `ReadFault` or `TooMany`; `Compile` or `Decompile`; `WriteFault`, at the
/// opening, the writing or the closing. The line of the status is reported; a failure of this changes no
/// status. `NoMemory` may come in each step up to the opening, and leaves no output.
pub fn tabcomp_call<D: Desk>(alloc: Global, words: &[String], desk: &mut D) -> TabStatus
    ensures { CallsTab (map string_bytes words.now) (D.seen desk.old) (D.seen desk.new) result }
{
    let status = match read_words(words) {
        Ok(job) => do_job(alloc, job, desk),
        Err(word) => TabStatus::Words { word },
    };
    tell(desk, &status);
    status
}
