//! What stands at a place: a whole unit, several in a row, a packet.
ghost use Rattle.std.specs.Prelude.{◌≡◌, ◌≤◌, drop, false};
ghost use Rattle.packet_search.specs.Rule.{is_whole, in_row, whole_among, is_held, is_cut, gives, stays};

use packet_forms::Form;
use ts_packet::SYNC_BYTE;

// The number of units in a row that make a beginning.
const ROW: usize = 5;

/// Whether a unit with a whole packet is at the front.
pub(crate) fn is_whole(form: Form, bytes: &[u8]) -> bool
    ensures { result ≡ is_whole form bytes.now }
{
    let lead = form.lead();
    bytes.len() >= lead + 188 && bytes[lead] == SYNC_BYTE
}

/// The bytes from a place on; none where it is past the end.
pub(crate) fn from_place(bytes: &[u8], place: usize) -> &[u8]
    ensures { result.now ≡ drop place bytes.now }
{
    let from = place.min(bytes.len());
    &bytes[from..]
}

// Whether so many whole units are in a row at the front.
fn in_row(form: Form, count: usize, bytes: &[u8]) -> bool
    ensures { result ≡ in_row form count bytes.now }
{
    if count == 0 {
        return true;
    }
    if !is_whole(form, bytes) {
        return false;
    }
    in_row(form, count - 1, from_place(bytes, form.unit()))
}

// How many of so many units at the front, one behind another, are whole.
fn whole_among(form: Form, count: usize, bytes: &[u8]) -> usize
    ensures few { result ≤ count }
    ensures among { result ≡ whole_among form count bytes.now }
{
    if count == 0 {
        return 0;
    }
    let rest = whole_among(form, count - 1, from_place(bytes, form.unit()));
    if is_whole(form, bytes) {
        return 1 + rest;
    }
    rest
}

// Whether at least two of the four units behind the first one are whole.
fn is_held(form: Form, bytes: &[u8]) -> bool
    ensures { result ≡ is_held form bytes.now }
{
    whole_among(form, 4, from_place(bytes, form.unit())) >= 2
}

// Whether five in a row begin within the first unit, and it is not held by those behind it.
fn is_cut(form: Form, bytes: &[u8]) -> bool
    ensures { result ≡ is_cut form bytes.now }
{
    if is_held(form, bytes) {
        return false;
    }
    for place in 1..form.unit() {
        if in_row(form, ROW, from_place(bytes, place)) {
            return true;
        }
    }
    false
}

/// Whether a packet is here; `near`: a unit ends right before.
pub(crate) fn gives(form: Form, near: bool, bytes: &[u8]) -> bool
    ensures { result ≡ gives form near bytes.now }
{
    if in_row(form, ROW, bytes) {
        return true;
    }
    if !near {
        return false;
    }
    if !is_whole(form, bytes) {
        return false;
    }
    !is_cut(form, bytes)
}

/// Whether a unit is here without a packet; `near`: a unit ends right before.
pub(crate) fn keeps(form: Form, near: bool, bytes: &[u8]) -> bool
    requires { gives form near bytes.now ≡ false }
    ensures { result ≡ stays form near bytes.now }
{
    if !near {
        return false;
    }
    if !is_whole(form, from_place(bytes, form.unit())) {
        return false;
    }
    !is_cut(form, bytes)
}
