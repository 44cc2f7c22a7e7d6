//! Reporting a text.
ghost use Rattle.ts_outside.specs.Saying.{Says};

use crate::desks::Desk;
use crate::wholes::report_whole;

/// Reports a text, in as many calls as the desk needs; no call for an empty text. Returns whether it failed.
///
/// At most one call fails.
pub fn say<D: Desk>(desk: &mut D, text: &str) -> bool
    ensures { Says (D.seen desk.old) (D.seen desk.new) text.now result }
{
    match report_whole(desk, text.as_bytes()) {
        Ok(()) => false,
        Err(_) => true,
    }
}
