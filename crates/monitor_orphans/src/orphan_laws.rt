//! Laws of PIDs to which no table refers. They run nothing.
ghost use Rattle.std.specs.Prelude.{◌++◌, ◌∷◌, [], ℕ, List, Option};
ghost use Rattle.ts_packet.specs.declared.cell.Cell.{Cell};
ghost use Rattle.ts_packet.specs.Cells.{Dropped};
ghost use Rattle.monitor_orphans.specs.OrphanRow.{Follows};
ghost use Rattle.monitor_orphans.specs.declared.orphans.Orphans.{Orphans};

/// A law; it runs nothing. A cell whose packet was dropped leaves what is kept as it is.
pub fn a_dropped_cell_meets_no_pid()
    ensures { (pcr_pid : Option ℕ) (kept : Orphans) (history : List Cell) → Follows pcr_pid kept history
        → Follows pcr_pid kept (history ++ Dropped ∷ []) }
{}
