//! The last line of the report of a run.

ghost use Rattle.std.specs.Prelude.{◌≡◌, IfOk};
ghost use Rattle.std.specs.String.{string_bytes};
ghost use Rattle.chain_model.specs.Reports.{end_line};

use chain_model::{Cause, InputEnd, Reason};
use std::alloc::{AllocError, Global};

/// The last line of the report: why the chain ended, and after how many positions.
pub(crate) fn end_line_text(alloc: Global, cause: Cause, cut: u64) -> Result<String, AllocError>
    ensures { IfOk result (λ text. string_bytes text ≡ end_line cause cut) }
{
    match cause {
        Cause::Input(how) => input_line_text(alloc, how, cut),
        Cause::Joint => format!(in alloc; "end: joint termination after {cut} packets\n"),
        Cause::Until(j) => format!(in alloc; "end: until of plugin {j} after {cut} packets\n"),
        Cause::Stop(j) => format!(in alloc; "end: plugin {j} stopped after {cut} packets\n"),
        Cause::Refuse(j, reason) => refusal_text(alloc, j, reason, cut),
        Cause::WriteFault => format!(in alloc; "end: write fault after {cut} packets\n"),
        Cause::NoMemory(_) => format!(in alloc; "end: no memory after {cut} packets\n"),
    }
}

/// The last line where the input's list ended.
fn input_line_text(alloc: Global, how: InputEnd, cut: u64) -> Result<String, AllocError>
    ensures { IfOk result (λ text. string_bytes text ≡ end_line (Cause.Input how) cut) }
{
    match how {
        InputEnd::End { left } => plain_end_text(alloc, left, cut),
        InputEnd::Sync { packet } => {
            format!(in alloc; "end: lost sync at input packet {packet} after {cut} packets\n")
        }
        InputEnd::ReadFault => format!(in alloc; "end: read fault after {cut} packets\n"),
        InputEnd::TooLong => format!(in alloc; "end: too long after {cut} packets\n"),
    }
}

/// The last line where no whole packet was left.
fn plain_end_text(alloc: Global, left: u8, cut: u64) -> Result<String, AllocError>
    ensures { IfOk result (λ text. string_bytes text ≡ end_line (Cause.Input (InputEnd.End left)) cut) }
{
    if left == 0 {
        format!(in alloc; "end: input after {cut} packets\n")
    } else {
        format!(in alloc; "end: input after {cut} packets, {left} bytes left out\n")
    }
}

/// The last line where a plugin refused a packet.
fn refusal_text(alloc: Global, j: usize, reason: Reason, cut: u64) -> Result<String, AllocError>
    ensures { IfOk result (λ text. string_bytes text ≡ end_line (Cause.Refuse j reason) cut) }
{
    let pid = reason.pid();
    format!(in alloc; "end: plugin {j} refused PID {pid} after {cut} packets\n")
}
