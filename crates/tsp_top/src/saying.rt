//! A text that is reported piece by piece, until a report fails.
ghost use Rattle.std.specs.Prelude.{◌≡◌, ◌++◌, ℕ, List, true};
ghost use Rattle.ts_outside.specs.Desk.{DeskView};
ghost use Rattle.ts_outside.specs.Saying.{Says};

use ts_outside::{Desk, say};

/// Reports one more piece of a text, unless a report failed before, and notes whether one has. Whatever the pieces, all of them
/// together are one text that was reported whole, or a first part of which was, up to the report that failed.
pub(crate) fn say_on<D: Desk>(desk: &mut D, failed: &mut bool, piece: &str)
    ensures said { (first : DeskView) (before : List ℕ) → Says first (D.seen desk.old) before failed.old
        → Says first (D.seen desk.new) (before ++ piece.now) failed.new }
    ensures over { failed.old ≡ true → (failed.new ≡ true) × (D.seen desk.new ≡ D.seen desk.old) }
{
    if *failed {
        return;
    }
    *failed = say(desk, piece);
}
