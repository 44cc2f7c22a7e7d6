//! Laws of pages. The functions run nothing; they are called for what they ensure.

ghost use Rattle.std.specs.Prelude.{◌≡◌, ◌≤◌, List, Bool, length, true, false, is_none, Some, IsTrue};
ghost use Rattle.ts_fields.specs.Bodies.{Page, Holding, page_sound, page_exact, page_fits, page_fits_uncounted, page_shaped, read_page, spell_page};

/// The bits that a sound page writes are read again as the same values; of a page whose items are counted by 8 bits, if
/// they are at most 255 bytes. A law; it runs nothing.
pub fn written_is_read()
    ensures { (p : Page) (h : Holding)
        → (is_none p.counted ≡ false → length (spell_page p h) ≤ 2040) → IsTrue (page_sound p) → page_fits p h ≡ true
        → read_page p (spell_page p h) ≡ Some h }
{}

/// The bits that were read by a page without free bits are the bits that it writes for these values. A law; it runs
/// nothing.
pub fn read_is_written()
    ensures { (p : Page) (from : List Bool) (h : Holding) → page_exact p ≡ true → read_page p from ≡ Some h
        → (from ≡ spell_page p h) × (page_fits p h ≡ true) }
{}

/// Values that fit a page have numbers where its fields hold numbers, whatever the length of counted texts and data. A
/// law; it runs nothing.
pub fn fit_page_is_shaped()
    ensures fit { (p : Page) (h : Holding) → page_fits p h ≡ true → page_shaped p h ≡ true }
    ensures uncounted { (p : Page) (h : Holding) → page_fits_uncounted p h ≡ true → page_shaped p h ≡ true }
{}

/// In a body of at most 255 bytes all counted texts and data have at most 255 bytes. A law; it runs nothing.
pub fn small_page_fits()
    ensures { (p : Page) (h : Holding) → page_fits_uncounted p h ≡ true → IsTrue (page_sound p) → length (spell_page p h) ≤ 2040
        → page_fits p h ≡ true }
{}
