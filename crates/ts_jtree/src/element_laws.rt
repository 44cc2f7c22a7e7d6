//! Laws of elements.

ghost use Rattle.std.specs.Prelude.{◌≡◌, List, ℕ, true, [], None, Ok, Option};
ghost use Rattle.serde_json.specs.Data.{Data, Members};
ghost use Rattle.serde_json.specs.Find.{get_member};
ghost use Rattle.ts_fields.specs.Layout.{Row, Held};
ghost use Rattle.ts_fields.specs.Fitting.{fits, shaped};
ghost use Rattle.ts_jtree.specs.Attributes.{read_attributes};
ghost use Rattle.ts_jtree.specs.Elements.{name_of, keys_known, nodes_key};
ghost use Rattle.ts_jtree.specs.Shown.{put_attributes, are_within, are_shown, keys_differ, is_key, rows_show, element_members};

use ts_charsets::tabled_texts_tell_bytes;
use ts_days::texts_tell_numbers;
use ts_fields::texts_tell_bytes;

/// Attributes that are shown are read again as they were. A law; it runs nothing.
pub fn shown_is_read()
    ensures { (rs : List Row) (values : List Held) (ms : Members)
        → fits rs values ≡ true → are_within rs values ≡ true → keys_differ rs ≡ true
        → ((key : List ℕ) → is_key rs key ≡ true → get_member key ms ≡ None)
        → read_attributes rs (put_attributes rs values ms) ≡ Ok values }
{
    texts_tell_bytes();
    tabled_texts_tell_bytes();
    texts_tell_numbers();
}

/// An element that is shown has its name, only known keys, its values and its children. A law; it runs nothing.
pub fn element_shows()
    ensures name { (rs : List Row) (called : List ℕ) (nodes : Option Data) (values : List Held)
        → rows_show rs ≡ true → name_of (element_members rs called nodes values) ≡ Ok called }
    ensures keys { (rs : List Row) (called : List ℕ) (nodes : Option Data) (values : List Held)
        → rows_show rs ≡ true
        → keys_known rs (element_members rs called nodes values) (element_members rs called nodes values)
        ≡ Ok [] }
    ensures values { (rs : List Row) (called : List ℕ) (nodes : Option Data) (values : List Held)
        → rows_show rs ≡ true → fits rs values ≡ true → are_within rs values ≡ true
        → read_attributes rs (element_members rs called nodes values) ≡ Ok values }
    ensures children { (rs : List Row) (called : List ℕ) (nodes : Option Data) (values : List Held)
        → rows_show rs ≡ true → get_member nodes_key (element_members rs called nodes values) ≡ nodes }
{
    shown_is_read();
}

/// Values that are read have numbers where the rows ask for numbers. A law; it runs nothing.
pub fn values_are_shaped()
    ensures { (rs : List Row) (ms : Members) (values : List Held) → read_attributes rs ms ≡ Ok values
        → shaped rs values ≡ true }
{}

/// Values that fit their rows can be shown. A law; it runs nothing.
pub fn fit_is_shown()
    ensures { (rs : List Row) (values : List Held) → fits rs values ≡ true → are_shown rs values ≡ true }
{}
