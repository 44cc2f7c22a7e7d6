//! Units in a row.
ghost use Rattle.std.specs.Prelude.{◌≡◌, ◌≤◌, ◌<◌, ◌*◌, true, false, drop};
ghost use Rattle.packet_forms.specs.Stripped.{unit};
ghost use Rattle.packet_search.specs.Rule.{in_row, is_whole};

use crate::places::{from_place, is_whole};
use packet_forms::Form;

/// How many whole units are in a row at the front of bytes, counted up to `most`. It looks at one byte of each.
pub fn units_in_row(form: Form, bytes: &[u8], most: usize) -> usize
    ensures few { result ≤ most }
    ensures row { in_row form result bytes.now ≡ true }
    ensures all { result < most → is_whole form (drop (result * unit form) bytes.now) ≡ false }
{
    let unit = form.unit();
    let mut count = 0;
    let mut rest = bytes;
    while count < most {
        if !is_whole(form, rest) {
            return count;
        }
        rest = from_place(rest, unit);
        count += 1;
    }
    count
}
