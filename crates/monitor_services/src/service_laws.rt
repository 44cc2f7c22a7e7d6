//! Laws of rows of what tables ask for. They run nothing.
ghost use Rattle.std.specs.Prelude.{◌++◌, ◌∷◌, [], ℕ, List, Option};
ghost use Rattle.ts_packet.specs.declared.cell.Cell.{Cell};
ghost use Rattle.ts_packet.specs.Cells.{Dropped};
ghost use Rattle.monitor_services.specs.RowStands.{HasEventRow, HasPidRow, HasPmtRow, HasStampRow};
ghost use Rattle.monitor_services.specs.declared.event_row.EventRow.{EventRow as KeptEvents};
ghost use Rattle.monitor_services.specs.declared.pid_kind.PidKind.{PidKind as Kind};
ghost use Rattle.monitor_services.specs.declared.pid_row.PidRow.{PidRow as KeptPids};
ghost use Rattle.monitor_services.specs.declared.pmt_row.PmtRow.{PmtRow as KeptPmts};
ghost use Rattle.monitor_services.specs.declared.stamp_row.StampRow.{StampRow as KeptStamps};

/// A law; it runs nothing. A cell whose packet was dropped leaves each row as it is: the tables in force stay.
pub fn a_dropped_cell_leaves_the_rows()
    ensures pmt { (pcr_pid : Option ℕ) (row : KeptPmts) (history : List Cell) → HasPmtRow pcr_pid row history
        → HasPmtRow pcr_pid row (history ++ Dropped ∷ []) }
    ensures pid { (kind : Kind) (units : ℕ) (pcr_pid : Option ℕ) (row : KeptPids) (history : List Cell)
        → HasPidRow kind units pcr_pid row history → HasPidRow kind units pcr_pid row (history ++ Dropped ∷ []) }
    ensures stamp { (pcr_pid : Option ℕ) (row : KeptStamps) (history : List Cell) → HasStampRow pcr_pid row history
        → HasStampRow pcr_pid row (history ++ Dropped ∷ []) }
    ensures event { (pcr_pid : Option ℕ) (row : KeptEvents) (history : List Cell) → HasEventRow pcr_pid row history
        → HasEventRow pcr_pid row (history ++ Dropped ∷ []) }
{}
