//! Laws of pages with groups. The functions run nothing; they are called for what they ensure.

ghost use Rattle.std.specs.Prelude.{◌≡◌, ◌++◌, List, Bool, take, true, Some, IsTrue};
ghost use Rattle.ts_fields.specs.Bodies.{Page, Holding, held_by, page_exact, page_fits, page_sound, spell_page};
ghost use Rattle.ts_fields.specs.Layout.{Row, Held};
ghost use Rattle.ts_fields.specs.Reading.{read_rows};
ghost use Rattle.ts_groups.specs.Groups.{Group, grouped_exact, grouped_sound, page_with, read_grouped};

use ts_fields::{read_is_written, written_is_read};

/// Whatever values the first fields have, the page of the fields that are then there can be read and written. A law; it
/// runs nothing.
pub fn chosen_page_is_sound()
    ensures { (p : Page) (groups : List Group) (values : List Held) → IsTrue (grouped_sound p groups)
        → IsTrue (page_sound (page_with p groups values)) }
{}

/// The page of the fields that are then there has no reserved bits that are read as anything, where no field of the page
/// and of its groups is such. A law; it runs nothing.
pub fn chosen_page_is_exact()
    ensures { (p : Page) (groups : List Group) (values : List Held) → grouped_exact p groups ≡ true
        → page_exact (page_with p groups values) ≡ true }
{}

/// What was read by a page with groups is a body of the page of the fields that are there by its own first values, and
/// the bits that were read are those that this page writes for it. A law; it runs nothing.
pub fn grouped_is_written()
    ensures { (p : Page) (groups : List Group) (from : List Bool) (q : Page) (h : Holding) → grouped_exact p groups ≡ true
        → read_grouped p groups from ≡ Some (q, h)
        → (q ≡ page_with p groups (take (held_by p.head) h.head)) × (from ≡ spell_page q h) × (page_fits q h ≡ true) }
{
    read_is_written();
}

/// The bits of values that fit the page of the fields that are there by the first of them are read again as the same
/// values, by the same fields. A law; it runs nothing.
pub fn grouped_is_read()
    ensures { (p : Page) (groups : List Group) (h : Holding) → IsTrue (grouped_sound p groups)
        → page_fits (page_with p groups (take (held_by p.head) h.head)) h ≡ true
        → read_grouped p groups (spell_page (page_with p groups (take (held_by p.head) h.head)) h)
        ≡ Some (page_with p groups (take (held_by p.head) h.head), h) }
{
    written_is_read();
}

/// Where rows and further rows behind them are read, the rows in front are read from the same bits, and their values are
/// the first ones. A law; it runs nothing.
pub fn front_is_read_first()
    ensures { (a b : List Row) (from : List Bool) (y : List Held × List Bool) → read_rows (a ++ b) from ≡ Some y
        → (x : List Held × List Bool) × (read_rows a from ≡ Some x) × (take (held_by a) y.0 ≡ x.0) }
{}
