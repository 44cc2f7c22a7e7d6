//! Descriptors that edits write.

ghost use Rattle.std.specs.Prelude.{◌≡◌, IfOk};
ghost use Rattle.ts_fields.specs.Bodies.{Page, Holding};
ghost use Rattle.ts_descr.specs.Descriptors.{Writes};
ghost use Rattle.plug_psi.specs.WrittenDescriptor.{written};

use std::alloc::AllocError;
use ts_bits::Descriptor;
use ts_descr::DescrRefusal;
use ts_fields::length_of_bits;
use ts_table_rows::written_rows_are_whole;

/// The descriptor that was written; `None` if its body would exceed 255 bytes.
pub fn in_room(answer: Result<Descriptor, DescrRefusal>) -> Result<Option<Descriptor>, AllocError>
    ensures { (p : Page) (h : Holding) → Writes p h answer → IfOk result (λ descriptor. descriptor ≡ written p h) }
{
    // Two laws, which run nothing.
    written_rows_are_whole();
    length_of_bits();
    match answer {
        Ok(descriptor) => {
            let _fits = descriptor.body();
            Ok(Some(descriptor))
        }
        Err(DescrRefusal::TooLarge { bytes: _ }) => Ok(None),
        Err(DescrRefusal::NoMemory) => Err(AllocError),
    }
}
