//! A plugin with the lines that it gave out, and its whole report.
ghost use Rattle.std.specs.Prelude.{◌≡◌, ◌≤◌, ℕ, List, map, take, length, true, OnOk, IsOk};
ghost use Rattle.ts_packet.specs.declared.cell.Cell.{Cell};
ghost use Rattle.chain_model.specs.Reports.{said_of};
ghost use Rattle.plugin_trait.specs.Marks.{AllowsMark};
ghost use Rattle.plugin_trait.specs.HeardStands.{HeardStands};

use crate::{Line, Plugin};
use std::alloc::AllocError;

/// A plugin, and all lines that it gave out so far.
#[derive(Drop)]
pub struct Heard<P> {
    pub plugin: P,
    pub lines: Vec<Line>,
}

/// Makes the lines all that the plugin reports of the first `cut` cells: its lines, then its summary. The cut is no less
/// than the greatest mark. It is called once.
pub fn report<P: Plugin>(heard: &mut Heard<P>, cut: u64) -> Result<(), AllocError>
    requires { AllowsMark (HeardStands P.rule P.stands_for heard.old) cut }
    ensures said { (history : List Cell) (mark : ℕ) → HeardStands P.rule P.stands_for heard.old history mark
        → mark ≤ cut → cut ≤ length history
        → OnOk result (map (λ line. line.text) heard.new.lines.items
        ≡ said_of (P.rule heard.old.plugin) (take cut history)) }
    ensures silent { P.silent heard.old.plugin ≡ true → IsOk result }
{
    heard.plugin.note(cut, &mut heard.lines)?;
    heard.plugin.summary(cut, &mut heard.lines)
}
