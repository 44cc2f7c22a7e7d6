//! Laws of rows of fields. The functions run nothing; they are called for what they ensure.

ghost use Rattle.std.specs.Prelude.{◌≡◌, ◌+◌, ◌*◌, [], ◌++◌, List, ℕ, Bool, length, true, Some};
ghost use Rattle.ts_fields.specs.Fitting.{fits, shaped};
ghost use Rattle.ts_fields.specs.Layout.{Row, Held};
ghost use Rattle.ts_fields.specs.Reading.{read_rows};
ghost use Rattle.ts_fields.specs.SoundRows.{are_exact, ends_last, is_open, widths};
ghost use Rattle.ts_fields.specs.Spelling.{spell_rows};

/// The bits of values are read again as the same values, whatever follows rows none of which goes to the end. A law;
/// it runs nothing.
pub fn spelled_rows_are_read()
    ensures { (rs : List Row) (values : List Held) (rest : List Bool)
        → fits rs values ≡ true → ends_last rs ≡ true → (is_open rs ≡ true → rest ≡ [])
        → read_rows rs (spell_rows rs values ++ rest) ≡ Some (values, rest) }
{}

/// The bits that were read by rows without free bits are the bits that they write for these values. A law; it runs
/// nothing.
pub fn read_rows_are_spelled()
    ensures { (rs : List Row) (from : List Bool) (values : List Held) (rest : List Bool) → are_exact rs ≡ true
        → read_rows rs from ≡ Some (values, rest)
        → (from ≡ spell_rows rs values ++ rest) × (fits rs values ≡ true) }
{}

/// Values that were read fit, and their bits are as many as were read, free bits included. A law; it runs nothing.
pub fn length_of_read_rows()
    ensures { (rs : List Row) (from : List Bool) (values : List Held) (rest : List Bool)
        → read_rows rs from ≡ Some (values, rest)
        → (length from ≡ length (spell_rows rs values) + length rest) × (fits rs values ≡ true) }
{}

/// The bits of values are those of the widths of the rows and of some whole bytes. A law; it runs nothing.
pub fn length_of_spelled_rows()
    ensures { (rs : List Row) (values : List Held) → shaped rs values ≡ true
        → (more : ℕ) × (length (spell_rows rs values) ≡ widths rs + 8 * more) }
{}

/// Values that fit have numbers where the fields hold numbers. A law; it runs nothing.
pub fn fit_rows_are_shaped()
    ensures { (rs : List Row) (values : List Held) → fits rs values ≡ true → shaped rs values ≡ true }
{}
