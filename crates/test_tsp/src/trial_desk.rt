//! The desk of a trial: its input under two names, and files of tables.
ghost use Rattle.std.specs.Prelude.{◌<◌};

use crate::inputs::{Input, input_bytes};
use std::alloc::{AllocError, Global};
use test_tools::DeskPlan;
use ts_outside::{FailPlan, FileBytes, FileList, MemoryDesk, NameText};

/// The name of the file; it has the empty name, too, as the standard input.
const FILE_NAME: &str = "in";

/// A text of one table: a PAT with the service 1 on PID 4096.
const TABLES: &str =
    r##"{"#name":"tsduck","#nodes":[{"#name":"PAT","transport_stream_id":1,"#nodes":[{"#name":"service","service_id":1,"program_map_PID":"0x1000"}]}]}"##;

/// A desk with this file and this plan.
pub(crate) fn filled_desk(
    alloc: Global,
    input: Input,
    plan: DeskPlan,
) -> Result<Box<MemoryDesk>, AllocError> {
    let files = files(alloc, input)?;
    let plan = plan.fail_plan(alloc)?;
    boxed_desk(alloc, files, plan)
}

/// A desk in a box.
pub(crate) fn boxed_desk(
    alloc: Global,
    files: FileList,
    plan: FailPlan,
) -> Result<Box<MemoryDesk>, AllocError>
    requires { (0 < plan.read_piece) × (0 < plan.write_piece) }
{
    let desk = MemoryDesk::new(alloc, files, plan)?;
    Ok(Box::new(alloc, desk)?)
}

/// The text files beside the input: one of tables, one that is no JSON, and an empty one, which has no section.
static TEXTS: [(&str, &str); 3] = [("t.json", TABLES), ("bad.json", "{"), ("e.bin", "")];

/// The input under its name and under the empty one, and the texts.
fn files(alloc: Global, input: Input) -> Result<FileList, AllocError> {
    let mut files = Vec::new(alloc);
    for name in [FILE_NAME, ""] {
        files.push(named(alloc, name, input_bytes(alloc, input)?)?)?;
    }
    for (name, text) in &TEXTS {
        files.push(named(alloc, name, Vec::from_slice(alloc, text.as_bytes())?)?)?;
    }
    Ok(FileList::of(files))
}

/// A file with these bytes under this name.
fn named(alloc: Global, name: &str, bytes: Vec<u8>) -> Result<(NameText, FileBytes), AllocError> {
    let name = NameText::of(String::from_str(alloc, name)?);
    Ok((name, FileBytes::of(bytes)))
}
