//! Laws of descriptors. The functions run nothing; they are called for what they ensure.

ghost use Rattle.std.specs.Prelude.{◌≡◌, List, nat_eq, true, Some, IsTrue};
ghost use Rattle.std.specs.List.{find};
ghost use Rattle.ts_bits.specs.TaggedBody.{TaggedBody, IsDescriptor};
ghost use Rattle.ts_fields.specs.Bodies.{Page, Holding, page_sound, page_exact, page_fits_uncounted};
ghost use Rattle.ts_descr.specs.Descriptors.{IsWritten, IsReadBack, read_typed};

use ts_fields::{
    bits_tell_bytes, length_of_bits, read_is_written, small_page_fits, written_is_read,
};

/// A descriptor that is written by a page without free bits is read back, if its values fit the fields of the page. A
/// law; it runs nothing.
pub fn written_is_read_back()
    ensures { (pages : List Page) (p : Page) (h : Holding) (d : TaggedBody)
        → find (λ q. nat_eq p.tag q.tag) pages ≡ Some p → IsTrue (page_sound p) → page_exact p ≡ true
        → page_fits_uncounted p h ≡ true → IsDescriptor d → IsWritten p h d
        → IsReadBack pages (record { tag = p.tag; holding = h }) d }
{
    written_is_typed();
    typed_is_written();
}

/// A descriptor that is written is read again, if its values fit the fields of the page. A law; it runs nothing.
fn written_is_typed()
    ensures { (pages : List Page) (p : Page) (h : Holding) (d : TaggedBody)
        → find (λ q. nat_eq p.tag q.tag) pages ≡ Some p → IsTrue (page_sound p)
        → page_fits_uncounted p h ≡ true → IsWritten p h d
        → read_typed pages d ≡ Some (record { tag = p.tag; holding = h }) }
{
    written_is_read();
    small_page_fits();
    length_of_bits();
}

/// A descriptor that is read by a page without free bits is the one that is written by this page for its values. A
/// law; it runs nothing.
fn typed_is_written()
    ensures { (pages : List Page) (p : Page) (h : Holding) (d e : TaggedBody)
        → find (λ q. nat_eq p.tag q.tag) pages ≡ Some p → page_exact p ≡ true
        → IsDescriptor d → IsDescriptor e
        → read_typed pages d ≡ Some (record { tag = p.tag; holding = h }) → IsWritten p h e → d ≡ e }
{
    read_is_written();
    bits_tell_bytes();
}
