//! Laws of writing. The functions run nothing; they are called for what they ensure.

ghost use Rattle.std.specs.Prelude.{◌≡◌, ◌%◌, ℕ, List, Bool, length, true, IsTrue};
ghost use Rattle.ts_fields.specs.Bits.{bits_of};
ghost use Rattle.ts_fields.specs.Fitting.{are_bytes};
ghost use Rattle.ts_fields.specs.Layout.{Held};
ghost use Rattle.ts_table_rows.specs.BodySpelling.{bytes_of, spell_item, spell_parts};
ghost use Rattle.ts_table_rows.specs.TableFitting.{item_fits, values_fit};
ghost use Rattle.ts_table_rows.specs.TablePages.{ItemPage, TablePage, item_sound, page_sound};
ghost use Rattle.ts_table_rows.specs.TableValues.{ItemHolding};

use ts_fields::{
    fit_rows_are_shaped, length_of_bits, length_of_spelled_rows, spelled_bytes_are_read,
};

/// Items and bodies are whole bytes, and bytes are equal where their bits are. A law; it runs nothing.
pub fn written_rows_are_whole()
    ensures item { (i : ItemPage) (x : ItemHolding) → IsTrue (item_sound i) → item_fits i x ≡ true →
        length (spell_item i x) % 8 ≡ 0 }
    ensures body { (p : TablePage) (values : List Held) (own items : List ℕ) → IsTrue (page_sound p) →
        values_fit p values ≡ true → length (spell_parts p values own items) % 8 ≡ 0 }
    ensures bytes { (row : List ℕ) (bits : List Bool) → are_bytes row ≡ true → bits_of row ≡ bits →
        row ≡ bytes_of bits }
{
    length_of_spelled_rows();
    fit_rows_are_shaped();
    length_of_bits();
    spelled_bytes_are_read();
}
