//! Laws of reading. The functions run nothing; they are called for what they ensure.

ghost use Rattle.std.specs.Prelude.{◌≡◌, ◌<◌, ℕ, Bool, List, length, true, All, Ok, IsTrue};
ghost use Rattle.ts_table_rows.specs.BodyReading.{read_next};
ghost use Rattle.ts_section.specs.ValidSection.{IsSection};
ghost use Rattle.ts_table_rows.specs.RunReading.{read_run};
ghost use Rattle.ts_table_rows.specs.TableFitting.{table_fits};
ghost use Rattle.ts_table_rows.specs.TablePages.{ItemPage, TablePage, item_sound};
ghost use Rattle.ts_table_rows.specs.TableValues.{ItemHolding, TableHolding};

use ts_fields::{
    fit_rows_are_shaped, length_of_bits, length_of_read_rows, length_of_spelled_rows,
    read_bytes_are_spelled, read_number_is_spelled,
};

/// The values of a run of valid sections are ones that a table of the layout can hold. A law; it runs nothing.
pub fn read_tables_fit()
    ensures { (p : TablePage) (ss : List (List ℕ)) (h : TableHolding) → All (λ s. IsSection s) ss →
        read_run p ss ≡ Ok h → table_fits p h ≡ true }
{
    length_of_read_rows();
}

/// Each item takes some bits. A law; it runs nothing.
pub fn items_take_bits()
    ensures { (one_zero : Bool) (i : ItemPage) (seen : Bool) (behind : ℕ) (from : List Bool)
        (item : ItemHolding) (now : Bool) (rest : List Bool) → IsTrue (item_sound i) →
        read_next one_zero i seen behind from ≡ Ok (item, now, rest) → length rest < length from }
{
    length_of_read_rows();
    fit_rows_are_shaped();
    length_of_spelled_rows();
    read_number_is_spelled();
    read_bytes_are_spelled();
    length_of_bits();
}
