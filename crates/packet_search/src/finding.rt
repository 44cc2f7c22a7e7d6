//! Finding the next packet among bytes.
ghost use Rattle.std.specs.Prelude.{◌≡◌, ◌<◌, ◌≤◌, ◌+◌, ◌-◌, ℕ, List, ◌++◌, length, drop, true, false, if◌then◌else◌};
ghost use Rattle.packet_forms.specs.Stripped.{unit};
ghost use Rattle.packet_search.specs.Rule.{gives};
ghost use Rattle.packet_search.specs.Search.{search_from};
ghost use Rattle.packet_search.specs.Settled.{IsEnough};

use crate::places::{from_place, gives, keeps};
use packet_forms::Form;

/// Where the next packet is among bytes, or how many of them are left out with none.
#[derive(Clone, Copy)]
pub struct Place {
    /// The number of bytes left out.
    pub left_out: usize,
    /// Whether a unit with a packet begins after them.
    pub packet: bool,
    /// Whether a unit ends right before the bytes that are not left out, with or without a packet.
    pub near: bool,
}

// The number of bytes that are left out at a place without a packet: a unit, or one.
fn step(form: Form, near: bool) -> usize
    ensures { result ≡ (if near then unit form else 1) }
{
    if near { form.unit() } else { 1 }
}

/// Finds the next packet, or leaves bytes out until fewer than `enough` are left. `near` says that a unit ends right
/// before `bytes`; of a file it does before the first byte.
///
/// Six units of bytes decide a place whatever follows, so `enough` is their number as long as more bytes may come, and
/// one at the end. It allocates nothing, and asks about each byte that it leaves out once.
pub fn find(form: Form, near: bool, bytes: &[u8], enough: usize) -> Place
    requires { 0 < enough }
    ensures within { result.left_out ≤ length bytes.now }
    ensures packet { result.packet ≡ true → gives form result.near (drop result.left_out bytes.now) ≡ true }
    ensures few { result.packet ≡ false → length bytes.now - result.left_out < enough }
    ensures enough { result.packet ≡ true → enough ≤ length bytes.now - result.left_out }

    // Whatever follows, the search goes on behind what was left out, and counts that.
    ensures goes_on { (left : ℕ) (more : List ℕ) → IsEnough form enough more
        → search_from form 0 near left (bytes.now ++ more)
        ≡ search_from form 0 result.near (left + result.left_out) (drop result.left_out bytes.now ++ more) }
{
    let mut from = 0;
    let mut beside = near;
    while bytes.len() - from >= enough {
        let rest = from_place(bytes, from);
        if gives(form, beside, rest) {
            return Place {
                left_out: from,
                packet: true,
                near: beside,
            };
        }
        beside = keeps(form, beside, rest);
        from += step(form, beside).min(bytes.len() - from);
    }
    Place {
        left_out: from,
        packet: false,
        near: beside,
    }
}
