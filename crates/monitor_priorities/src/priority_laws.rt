//! A law of the rows of each priority. It runs nothing.
ghost use Rattle.std.specs.Prelude.{◌++◌, ◌∷◌, [], ℕ, List, Option};
ghost use Rattle.ts_packet.specs.declared.cell.Cell.{Cell};
ghost use Rattle.ts_packet.specs.Cells.{Dropped};
ghost use Rattle.monitor_priorities.specs.RowsStand.{HasFirst, HasSecond, HasThird};
ghost use Rattle.monitor_priorities.specs.declared.first_rows.FirstRows.{FirstRows as KeptFirst};
ghost use Rattle.monitor_priorities.specs.declared.second_rows.SecondRows.{SecondRows as KeptSecond};
ghost use Rattle.monitor_priorities.specs.declared.third_rows.ThirdRows.{ThirdRows as KeptThird};

use monitor_counters::a_dropped_cell_has_no_counter;
use monitor_keys::a_dropped_cell_leaves_the_key;
use monitor_orphans::a_dropped_cell_meets_no_pid;
use monitor_pcrs::a_dropped_cell_has_no_pcr;
use monitor_services::a_dropped_cell_leaves_the_rows;

/// A law; it runs nothing. A cell whose packet was dropped leaves the rows of each priority as they are.
pub fn a_dropped_cell_leaves_the_priorities()
    ensures first { (gap : ℕ) (pcr_pid : Option ℕ) (rows : KeptFirst) (history : List Cell) → HasFirst gap pcr_pid rows history
        → HasFirst gap pcr_pid rows (history ++ Dropped ∷ []) }
    ensures second { (bitrate pcr_pid : Option ℕ) (rows : KeptSecond) (history : List Cell) → HasSecond bitrate pcr_pid rows history
        → HasSecond bitrate pcr_pid rows (history ++ Dropped ∷ []) }
    ensures third { (pcr_pid : Option ℕ) (rows : KeptThird) (history : List Cell) → HasThird pcr_pid rows history
        → HasThird pcr_pid rows (history ++ Dropped ∷ []) }
{
    a_dropped_cell_leaves_the_key();
    a_dropped_cell_has_no_counter();
    a_dropped_cell_has_no_pcr();
    a_dropped_cell_meets_no_pid();
    a_dropped_cell_leaves_the_rows();
}
