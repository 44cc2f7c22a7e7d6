//! Laws of what is kept of continuity counters. They run nothing.
ghost use Rattle.std.specs.Prelude.{◌++◌, ◌∷◌, [], List};
ghost use Rattle.ts_packet.specs.declared.cell.Cell.{Cell};
ghost use Rattle.ts_packet.specs.Cells.{Dropped};
ghost use Rattle.monitor_counters.specs.MetPackets.{Remembers};
ghost use Rattle.monitor_counters.specs.declared.last_mets.LastMets.{LastMets};

/// A law; it runs nothing. A cell whose packet was dropped leaves what is kept as it is.
pub fn a_dropped_cell_has_no_counter()
    ensures { (kept : LastMets) (history : List Cell) → Remembers kept history → Remembers kept (history ++ Dropped ∷ []) }
{}
