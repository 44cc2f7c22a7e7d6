//! Two rows as one, in the order of positions.

ghost use Rattle.std.specs.Prelude.{◌≡◌, ◌∷◌, [], IfSome, IfNone, IfOk};
ghost use Rattle.chain_rounds.specs.Merged.{first_is_next, merged};

use plugin_notes::PacketNote;
use std::alloc::{AllocError, Global};
use std::collections::VecDeque;

/// Whether the next member is the first row's.
fn first_is_next<N: PacketNote>(first: &VecDeque<N>, second: &VecDeque<N>) -> bool
    ensures { result ≡ first_is_next N.place first.now.items second.now.items }
{
    let Some(x) = first.front() else {
        return false;
    };
    let Some(y) = second.front() else {
        return true;
    };
    !(y.at() < x.at())
}

/// Removes and returns the next member of two rows.
fn next_of<N: PacketNote>(first: &mut VecDeque<N>, second: &mut VecDeque<N>) -> Option<N>
    ensures taken { IfSome result (λ note. merged N.place first.old.items second.old.items
        ≡ note ∷ merged N.place first.new.items second.new.items) }
    ensures none { IfNone result (merged N.place first.old.items second.old.items ≡ []) }
{
    if first_is_next(first, second) {
        first.pop_front()
    } else {
        second.pop_front()
    }
}

/// Two rows as one, in the order of positions; of two members at one position that of the first row comes first. Each row is
/// in that order. Out of memory both rows are lost.
pub fn merge<N: PacketNote>(
    alloc: Global,
    mut first: VecDeque<N>,
    mut second: VecDeque<N>,
) -> Result<VecDeque<N>, AllocError>
    ensures { IfOk result (λ both. both.items ≡ merged N.place first.items second.items) }
{
    let mut both = VecDeque::new(alloc);
    while let Some(note) = next_of(&mut first, &mut second) {
        both.push_back(note)?;
    }
    Ok(both)
}
