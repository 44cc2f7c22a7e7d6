//! Where the packets behind gaps stand in the list of the input with its stuffing.
ghost use Rattle.std.specs.Prelude.{◌≡◌, ◌⊎◌, ◌≤◌, ◌-◌, ◌&&◌, not, nat_lt, true};
ghost use Rattle.stage_run.specs.InputStands as stage;
ghost use Rattle.tsp_top.specs.InputRounds.{is_between};
ghost use Rattle.tsp_top.specs.LeftOut.{is_below, position_of};

use search_source::Gap;
use stage_run::Stuffing;

/// Two positions of a round: what is told is at the one or behind it, and before the other.
#[derive(Clone, Copy)]
pub(crate) struct Span {
    pub(crate) from: u64,
    pub(crate) to: u64,
}

/// The position of the packet with this number.
fn place_of(stuffing: &Stuffing, number: u64) -> u128
    requires { 1 ≤ stuffing.now.every }
    ensures { result ≡ position_of (stage.stuffing_of stuffing.now) number }
{
    let groups = number / u64::from(stuffing.every);
    stuffing.start as u128 + (number as u128 + stuffing.null as u128 * groups as u128)
}

/// Whether the packet with this number is before a position.
fn is_before_place(stuffing: &Stuffing, place: u64, number: u64) -> bool
    requires { 1 ≤ stuffing.now.every }
    ensures { result ≡ is_below (stage.stuffing_of stuffing.now) place number }
{
    place_of(stuffing, number) < place as u128
}

/// Whether a position is before that of the packet with this number.
pub(crate) fn is_after_place(stuffing: &Stuffing, place: u64, number: u64) -> bool
    requires { 1 ≤ stuffing.now.every }
    ensures { result ≡ nat_lt place (position_of (stage.stuffing_of stuffing.now) number) }
{
    (place as u128) < place_of(stuffing, number)
}

/// Whether the packet behind a gap is in the span.
pub(crate) fn is_told(stuffing: &Stuffing, span: Span, gap: Gap) -> bool
    requires { 1 ≤ stuffing.now.every }
    ensures { result ≡ is_between (stage.stuffing_of stuffing.now) span.from span.to gap }
{
    let below = is_before_place(stuffing, span.to, gap.before);
    let before = is_before_place(stuffing, span.from, gap.before);
    below && !before
}

/// Whether each gap before a packet with a number below `kept` is before the span.
pub(crate) fn has_all(stuffing: &Stuffing, from: u64, kept: u64) -> bool
    requires { 1 ≤ stuffing.now.every }
    ensures { result ≡ true → (kept ≡ 0) ⊎ (is_below (stage.stuffing_of stuffing.now) from (kept - 1) ≡ true) }
{
    if kept == 0 {
        return true;
    }
    is_before_place(stuffing, from, kept - 1)
}
