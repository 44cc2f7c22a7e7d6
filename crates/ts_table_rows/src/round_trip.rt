//! The law of writing and reading a table. The function runs nothing; it is called for what it ensures.

ghost use Rattle.std.specs.Prelude.{◌≡◌, true, IsTrue};
ghost use Rattle.ts_table_rows.specs.RoundTrip.{IsReadAgain, IsWrittenWhole, forms_runs};
ghost use Rattle.ts_table_rows.specs.TableFitting.{DescriptorsFit, table_fits};
ghost use Rattle.ts_table_rows.specs.TablePages.{TablePage, page_sound};
ghost use Rattle.ts_table_rows.specs.TableValues.{TableHolding};

use ts_bits::loops_are_whole_or_cut;
use ts_fields::{
    fit_rows_are_shaped, length_of_bits, length_of_spelled_rows, read_bytes_are_spelled,
    spelled_bytes_are_read, spelled_number_is_read, spelled_rows_are_read,
};
use ts_section::made_sections_are_valid;

/// A table that is written is read again: for each layout, the sections of a table that it can hold, read as a run,
/// give exactly that table. They are a whole run where the layout keeps the section numbers exactly for the table_ids
/// of an EIT. A law; it runs nothing.
pub fn written_tables_are_read()
    ensures again { (p : TablePage) (h : TableHolding) → IsTrue (page_sound p) → table_fits p h ≡ true →
        DescriptorsFit h.body → IsReadAgain p h }
    ensures whole { (p : TablePage) (h : TableHolding) → IsTrue (page_sound p) → forms_runs p ≡ true →
        table_fits p h ≡ true → DescriptorsFit h.body → IsWrittenWhole p h }
{
    fit_rows_are_shaped();
    length_of_spelled_rows();
    length_of_bits();
    spelled_rows_are_read();
    spelled_number_is_read();
    spelled_bytes_are_read();
    read_bytes_are_spelled();
    loops_are_whole_or_cut();
    made_sections_are_valid();
}
