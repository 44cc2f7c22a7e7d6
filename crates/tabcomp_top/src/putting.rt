//! Opening, writing and closing the output.
ghost use Rattle.std.specs.Prelude.{◌≡◌, ℕ, List};
ghost use Rattle.tabcomp_top.specs.Putting.{Closes, Puts, new_sink};

use crate::status::TabStatus;
use ts_outside::{Desk, Failed, OpenFault, write_whole};

/// Writes all bytes to an open output, and closes it in any case.
fn write_and_close<D: Desk>(desk: &mut D, output: D::Out, bytes: &[u8]) -> Result<(), Failed>
    ensures { (name : List ℕ) → D.Out.seen output ≡ new_sink (D.seen desk.old) name
        → Closes name bytes.now (D.seen desk.old) (D.seen desk.new) result }
{
    let mut output = output;
    let written = write_whole(&mut output, bytes);
    let closed = desk.close_out(output);
    match written {
        Ok(()) => closed,
        Err(_) => Err(Failed),
    }
}

/// Opens the output, writes all bytes and closes it.
pub(crate) fn put<D: Desk>(desk: &mut D, name: &str, bytes: &[u8]) -> TabStatus
    ensures { Puts name.now bytes.now (D.seen desk.old) (D.seen desk.new) result }
{
    match desk.open_out(Some(name)) {
        Ok(output) => match write_and_close(desk, output, bytes) {
            Ok(()) => TabStatus::Done,
            Err(Failed) => TabStatus::WriteFault,
        },
        Err(OpenFault::Failed) => TabStatus::WriteFault,
        Err(OpenFault::NoMemory) => TabStatus::NoMemory,
    }
}
