//! Reading and writing one descriptor by its page.

ghost use Rattle.std.specs.Prelude.{◌≡◌, ◌-◌, ◌^◌, List, min, nat_eq, true, option_map, Some, IfOk, IfSome, IsTrue};
ghost use Rattle.std.specs.List.{find};
ghost use Rattle.ts_fields.specs.Bits.{bits_of};
ghost use Rattle.ts_fields.specs.Bodies.{Page, page, page_sound, page_exact, page_fits, page_fits_uncounted, page_shaped, body_held, read_page};
ghost use Rattle.ts_descr.specs.Descriptors.{Writes, IsReadBack};

use crate::descr_laws::written_is_read_back;
use crate::refusal::DescrRefusal;
use std::alloc::{AllocError, Global};
use ts_bits::Descriptor;
use ts_fields::{Body, Layout, NotRead, length_of_bits, read_body, write_body};

/// The values of the body of a descriptor by a page; `None` exactly where the body is not of that page. The tag is
/// not read.
pub fn read_by_page(
    alloc: Global,
    layout: &Layout,
    from: &Descriptor,
) -> Result<Option<Body>, AllocError>
    requires { IsTrue (page_sound (page layout.now)) }
    ensures read { IfOk result (λ o. option_map body_held o
        ≡ read_page (page layout.now) (bits_of from.now.body)) }
    ensures fits { IfOk result (λ o. IfSome o (λ b. page_fits (page layout.now) (body_held b) ≡ true)) }
{
    match read_body(alloc, layout, from.body()) {
        Ok(body) => Ok(Some(body)),
        Err(NotRead::Outside) => Ok(None),
        Err(NotRead::NoMemory) => Err(AllocError),
    }
}

/// The descriptor with the tag of the page and a body with these values. Where it is the first page of its tag in a
/// list of pages, and has no free bits, and the values fit its fields, reading by this list gives the values back,
/// for this descriptor and no other.
pub fn write_by_page(
    alloc: Global,
    layout: &Layout,
    body: &Body,
) -> Result<Descriptor, DescrRefusal>
    requires sound { IsTrue (page_sound (page layout.now)) }
    requires shaped { page_shaped (page layout.now) (body_held body.now) ≡ true }
    ensures written { Writes (page layout.now) (body_held body.now) result }
    ensures back { (pages : List Page)
        → find (λ p. nat_eq (page layout.now).tag p.tag) pages ≡ Some (page layout.now)
        → page_exact (page layout.now) ≡ true
        → page_fits_uncounted (page layout.now) (body_held body.now) ≡ true
        → IfOk result (λ d. IsReadBack pages
        (record { tag = (page layout.now).tag; holding = body_held body.now }) d) }
{
    let bytes = write_body(alloc, layout, body)?;
    // They run nothing, the proof cites them: bytes have eight times as many bits, and values that fit are read back.
    length_of_bits();
    written_is_read_back();
    if bytes.len() > 255 {
        let bytes = told_size(bytes.len());
        return Err(DescrRefusal::TooLarge { bytes });
    }
    let descriptor = Descriptor::new(alloc, layout.tag, &bytes)?;
    let _fits = descriptor.body();
    Ok(descriptor)
}

/// A number of bytes; 2^32 - 1 for any greater one.
fn told_size(bytes: usize) -> u32
    ensures { result ≡ min bytes (2 ^ 32 - 1) }
{
    u32::try_from(bytes).unwrap_or(u32::MAX)
}
