//! Laws of tables and JSON.

ghost use Rattle.std.specs.Prelude.{◌≡◌, ◌≤◌, ℕ, List, false, All, Ok};
ghost use Rattle.serde_json.specs.Data.{Data, depth};
ghost use Rattle.serde_json.specs.Written.{has_float};
ghost use Rattle.ts_section.specs.ValidSection.{IsSection};
ghost use Rattle.ts_section.specs.SectionRun.{IsTableRun};
ghost use Rattle.ts_json_tables.specs.HeldTables.{TableValue};
ghost use Rattle.ts_json_tables.specs.ValidTables.{IsOfBytes, IsTable};
ghost use Rattle.ts_json_tables.specs.RunTables.{sections_of_table, table_of_run};
ghost use Rattle.ts_json_tables.specs.TableElements.{table_shown};
ghost use Rattle.ts_json_tables.specs.TableReading.{table_read};
ghost use Rattle.ts_json_tables.specs.ToldTables.{IsKept, TellsTable, told_again};

use ts_bits::loops_are_whole_or_cut;
use ts_fields::{length_of_bits, length_of_read_rows, read_bytes_are_spelled, read_is_written};
use ts_groups::grouped_is_written;
use ts_item_forms::formed_is_written;
use ts_json_descr::shown_descr_is_read;
use ts_jtree::element_shows;
use ts_section::made_sections_are_valid;
use ts_table_rows::{written_rows_are_whole, written_tables_are_read};

/// Every valid table that is shown is read again as it was. A law; it runs nothing.
pub fn shown_table_is_read()
    ensures { (t : TableValue) → IsTable t → IsOfBytes t → table_read (table_shown t) ≡ Ok t }
{
    element_shows();
    shown_descr_is_read();
    written_rows_are_whole();
    length_of_bits();
    length_of_read_rows();
    loops_are_whole_or_cut();
    read_bytes_are_spelled();
    read_is_written();
    grouped_is_written();
    formed_is_written();
}

/// The element of a table has only whole numbers and is at most nine arrays and objects deep, so that `serde_json`
/// writes its text and reads it again. A law; it runs nothing.
pub fn shown_table_is_plain()
    ensures whole { (t : TableValue) → has_float (table_shown t) ≡ false }
    ensures shallow { (t : TableValue) → depth (table_shown t) ≤ 9 }
{}

/// The table of a run of valid sections has valid descriptors, and bytes below 256. A law; it runs nothing.
pub fn run_tables_are_of_bytes()
    ensures { (run : List (List ℕ)) → All (λ s. IsSection s) run → IsOfBytes (table_of_run run) }
{
    loops_are_whole_or_cut();
    read_bytes_are_spelled();
}

/// Every table that is read is valid, has valid descriptors, and bytes below 256. A law; it runs nothing.
pub fn read_tables_are_valid()
    ensures { (value : Data) (t : TableValue) → table_read value ≡ Ok t → IsTable t × IsOfBytes t }
{
    length_of_bits();
    read_bytes_are_spelled();
}

/// The sections of a valid table, where it has some, are valid and are the whole run of one table: that table again, or,
/// for a table given by its bytes whose sections read as the table of their table_id, that one. A law; it runs nothing.
pub fn sections_tell_their_table()
    ensures told { (t : TableValue) (ss : List (List ℕ)) → IsTable t → IsOfBytes t → sections_of_table t ≡ Ok ss
        → TellsTable (told_again t) ss }
    ensures kept { (run : List (List ℕ)) → IsTableRun run → All (λ s. IsSection s) run → IsTable (table_of_run run)
        → IsKept run }
{
    made_sections_are_valid();
    written_tables_are_read();
    length_of_bits();
    read_bytes_are_spelled();
    run_tables_are_of_bytes();
}
