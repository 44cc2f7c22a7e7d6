//! Reporting the line of a status.
ghost use Rattle.tabcomp_top.specs.StatusText.{line_of};
ghost use Rattle.tabcomp_top.specs.Telling.{Tells};

use crate::status::TabStatus;
use ts_outside::{Desk, report_whole};

/// Reports the line of a status. A failure of this changes no status.
pub(crate) fn tell<D: Desk>(desk: &mut D, status: &TabStatus)
    ensures { Tells (D.seen desk.old) (D.seen desk.new) (line_of status.now) }
{
    let line = status.line();
    let _ = report_whole(desk, line.as_bytes());
}
