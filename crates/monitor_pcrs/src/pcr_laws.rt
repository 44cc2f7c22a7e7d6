//! Laws of what is kept of PCRs. They run nothing.
ghost use Rattle.std.specs.Prelude.{◌++◌, ◌∷◌, [], List};
ghost use Rattle.ts_packet.specs.declared.cell.Cell.{Cell};
ghost use Rattle.ts_packet.specs.Cells.{Dropped};
ghost use Rattle.monitor_pcrs.specs.LastPcrs.{Remembers};
ghost use Rattle.monitor_pcrs.specs.declared.pcr_steps.PcrSteps.{PcrSteps};

/// A law; it runs nothing. A cell whose packet was dropped leaves what is kept as it is.
pub fn a_dropped_cell_has_no_pcr()
    ensures { (steps : PcrSteps) (history : List Cell) → Remembers steps history → Remembers steps (history ++ Dropped ∷ []) }
{}
