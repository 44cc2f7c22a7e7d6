//! Laws of bodies with items of a form. The functions run nothing; they are called for what they ensure.

ghost use Rattle.std.specs.Prelude.{◌≡◌, ◌<◌, ◌≤◌, List, Bool, length, nat_lt, true, Some, IsTrue};
ghost use Rattle.ts_fields.specs.Bodies.{Holding, Page, page_sound};
ghost use Rattle.ts_fields.specs.Fitting.{fits};
ghost use Rattle.ts_fields.specs.Layout.{Held};
ghost use Rattle.ts_fields.specs.SoundRows.{widths};
ghost use Rattle.ts_item_forms.specs.ItemForms.{AreOfForm, Form, FormedHolding, form_sound, formed_exact, formed_sound, page_by, read_formed, read_item, spell_formed};

use ts_fields::{
    fit_rows_are_shaped, length_of_bits, length_of_read_rows, length_of_spelled_rows,
    read_bytes_are_spelled, read_is_written, read_number_is_spelled, read_rows_are_spelled,
    spelled_bytes_are_read, spelled_number_is_read, spelled_rows_are_read, written_is_read,
};
use ts_groups::{chosen_page_is_exact, chosen_page_is_sound, front_is_read_first};

/// Whatever values the first fields of an item have, the page of the fields that it then has can be read and written. A
/// law; it runs nothing.
pub fn item_page_is_sound()
    ensures { (f : Form) (front : List Held) → IsTrue (form_sound f) → IsTrue (page_sound (page_by f front)) }
{
    chosen_page_is_sound();
}

/// What was read by a page and the form of its items are values that fit, each item of the form, and the bits that were
/// read are those that are written for them. A law; it runs nothing.
pub fn formed_is_written()
    ensures { (p : Page) (f : Form) (from : List Bool) (h : FormedHolding) → formed_exact p f ≡ true
        → read_formed p f from ≡ Some h
        → (from ≡ spell_formed p h) × (fits p.head h.head ≡ true) × (AreOfForm f h.items) }
{
    read_rows_are_spelled();
    read_number_is_spelled();
    read_bytes_are_spelled();
    length_of_bits();
    read_is_written();
    front_is_read_first();
    chosen_page_is_exact();
}

/// The bits of values that fit, each item of the form, are read again as the same values, by the same fields, if they are
/// at most 255 bytes. A law; it runs nothing.
pub fn formed_is_read()
    ensures { (p : Page) (f : Form) (h : FormedHolding) → IsTrue (formed_sound p f) → fits p.head h.head ≡ true
        → AreOfForm f h.items → length (spell_formed p h) ≤ 2040 → read_formed p f (spell_formed p h) ≡ Some h }
{
    spelled_rows_are_read();
    spelled_number_is_read();
    spelled_bytes_are_read();
    read_number_is_spelled();
    read_bytes_are_spelled();
    length_of_read_rows();
    length_of_spelled_rows();
    fit_rows_are_shaped();
    written_is_read();
    front_is_read_first();
    chosen_page_is_sound();
}

/// An item of a form whose first fields take some bits takes some. A law; it runs nothing.
pub fn item_takes_bits()
    ensures { (f : Form) (from : List Bool) (x : (Page × Holding) × List Bool) → nat_lt 0 (widths f.head) ≡ true
        → read_item f from ≡ Some x → length x.1 < length from }
{
    read_number_is_spelled();
    read_bytes_are_spelled();
    length_of_read_rows();
    length_of_spelled_rows();
    fit_rows_are_shaped();
}
