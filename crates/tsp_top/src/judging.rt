//! Whether a plugin has a fault before the cut of its run.
ghost use Rattle.std.specs.Prelude.{◌≡◌, ◌≤◌, ℕ, List, length, take, IfOk, OnOk};
ghost use Rattle.ts_packet.specs.declared.cell.Cell.{Cell};
ghost use Rattle.plugin_trait.specs.Marks.{AllowsMark};
ghost use Rattle.plugin_trait.specs.HeardStands.{HeardStands};

use plugin_trait::{Heard, Plugin};
use std::alloc::AllocError;

/// Tells the plugin that its run is cut at `cut`, takes its lines up to there, and returns whether it has a fault in the cells
/// before that: one that it reports, or that it found nothing to do.
pub(crate) fn judge<P: Plugin>(heard: &mut Heard<P>, cut: u64) -> Result<bool, AllocError>
    requires { AllowsMark (HeardStands P.rule P.stands_for heard.old) cut }
    ensures same_rule { P.rule heard.new.plugin ≡ P.rule heard.old.plugin }
    ensures allows { OnOk result (AllowsMark (HeardStands P.rule P.stands_for heard.new) cut) }
    ensures stands { (history : List Cell) (mark : ℕ) → HeardStands P.rule P.stands_for heard.old history mark
        → mark ≤ cut → cut ≤ length history
        → OnOk result (HeardStands P.rule P.stands_for heard.new history cut) }
    ensures judged { (history : List Cell) (mark : ℕ) → HeardStands P.rule P.stands_for heard.old history mark
        → mark ≤ cut → cut ≤ length history
        → IfOk result (λ faulty. faulty ≡ (P.rule heard.old.plugin).has_fault (take cut history)) }
{
    heard.plugin.note(cut, &mut heard.lines)?;
    Ok(heard.plugin.has_fault(cut))
}
