//! The law of descriptors and JSON.

ghost use Rattle.std.specs.Prelude.{◌≡◌, ◌≤◌, ◌<◌, true, length, Ok};
ghost use Rattle.ts_bits.specs.TaggedBody.{TaggedBody};
ghost use Rattle.ts_fields.specs.Bits.{bits_of};
ghost use Rattle.ts_fields.specs.Fitting.{are_bytes};
ghost use Rattle.ts_json_descr.specs.DescrElements.{descr_shown};
ghost use Rattle.ts_json_descr.specs.DescrReading.{descr_read};

use ts_fields::{length_of_bits, read_is_written};
use ts_groups::grouped_is_written;
use ts_item_forms::formed_is_written;
use ts_jtree::element_shows;

/// Every descriptor that is shown is read again: its tag and the bits of its body, which determine its bytes.
/// A law; it runs nothing.
pub fn shown_descr_is_read()
    ensures { (d : TaggedBody) → d.tag < 256 → are_bytes d.body ≡ true → length d.body ≤ 255
        → descr_read (descr_shown d) ≡ Ok (d.tag, bits_of d.body) }
{
    element_shows();
    length_of_bits();
    read_is_written();
    grouped_is_written();
    formed_is_written();
}
