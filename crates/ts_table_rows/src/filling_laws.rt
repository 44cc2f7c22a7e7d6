//! Laws of filling. The functions run nothing; they are called for what they ensure.

ghost use Rattle.std.specs.Prelude.{◌≡◌, [], List, ℕ, Bool, map, Ok, IsTrue};
ghost use Rattle.ts_fields.specs.Layout.{Held};
ghost use Rattle.ts_table_rows.specs.Filling.{pieces, join, Each, AllFit, AreFull};
ghost use Rattle.ts_table_rows.specs.FilledRows.{AreFilled, kind_row, rows_by};
ghost use Rattle.ts_table_rows.specs.TablePages.{TablePage, page_sound};
ghost use Rattle.ts_table_rows.specs.TableSections.{body_rows, things};
ghost use Rattle.ts_table_rows.specs.TableValues.{BodyHolding};

use ts_fields::{fit_rows_are_shaped, length_of_bits, length_of_spelled_rows};

/// Greedy pieces of any kind of things join to the whole list, each fits the room where each thing does, and no piece
/// but the last has room for the next thing. A law; it runs nothing.
pub fn filled_greedily<T>()
    ensures join { (size : T → ℕ) (room : ℕ) (xs : List T) → join (pieces size room 0 [] xs) ≡ xs }
    ensures fit { (size : T → ℕ) (room : ℕ) (xs : List T) → Each size room xs →
        AllFit size room (pieces size room 0 [] xs) }
    ensures full { (size : T → ℕ) (room : ℕ) (xs : List T) → AreFull size room (pieces size room 0 [] xs) }
{}

/// The bodies that are filled with bytes are the bodies of the descriptors and items of these bytes, and each leaves
/// room for the head of a section and the CRC. A law; it runs nothing.
pub fn bodies_are_filled()
    ensures same { (p : TablePage) (b : BodyHolding) →
        rows_by p b.values (map (kind_row p.items) (things b)) ≡ body_rows p b }
    ensures small { (p : TablePage) (values : List Held) (xs : List (Bool × List ℕ)) (rows : List (List ℕ)) →
        IsTrue (page_sound p) → rows_by p values xs ≡ Ok rows → AreFilled p rows }
{
    length_of_spelled_rows();
    fit_rows_are_shaped();
    length_of_bits();
}
