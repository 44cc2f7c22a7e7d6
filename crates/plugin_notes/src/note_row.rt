//! Notes on packets that are not counted yet, in a buffer of a fixed size, oldest first. A note leaves the buffer
//! once its packet is before the mark, or before the cut.
ghost use Rattle.std.specs.Prelude.{◌≡◌, ◌<◌, ◌≤◌, ◌+◌, ◌∷◌, ◌++◌, [], IfSome, IfNone, IfOk, OnOk, OnErr, IsErr, IsOk, None, length, map, nat_lt, option_to_list};
ghost use Rattle.std.specs.List.{take_while};
ghost use Rattle.plugin_notes.specs.NotesKept.{StartsFrom, TakesBelow};

use circular_buffer::HeapCircularBuffer;
use plugin_trait::Line;
use std::alloc::{AllocError, Global};

/// A note on a packet.
pub trait PacketNote: Drop {
    ghost use Rattle.std.specs.Prelude.{◌≡◌, ℕ};

    /// The position of the packet, for contracts.
    ghost place: { Self → ℕ };

    /// The position of the packet; `place` in contracts.
    fn at(&self) -> u64
        ensures { result ≡ place self.now };
}

/// A note that has a line in the report.
pub trait LineNote: PacketNote {
    ghost use Rattle.std.specs.Prelude.{◌≡◌, IfOk};
    ghost use Rattle.plugin_trait.specs.declared.line.Line.{Line as GivenLine};

    /// The line, for contracts.
    ghost line_of: { Self → GivenLine };

    /// The line. Out of memory it returns `AllocError`.
    fn line(&self, alloc: Global) -> Result<Line, AllocError>
        ensures { IfOk result (λ line. line ≡ line_of self.now) };
}

/// Appends a note. If the buffer is full it returns `AllocError`, and the notes are unchanged.
#[inline]
pub fn push_note<N: Drop>(notes: &mut HeapCircularBuffer<N>, note: N) -> Result<(), AllocError>
    ensures ok { OnOk result (notes.new.items ≡ notes.old.items ++ note ∷ []) }
    ensures err { OnErr result (notes.new.items ≡ notes.old.items) }
    ensures full { IsErr result → notes.old.capacity ≤ length notes.old.items }
    ensures capacity { notes.new.capacity ≡ notes.old.capacity }
{
    if notes.len() >= notes.capacity() {
        return Err(AllocError);
    }
    notes.push_back(note);
    Ok(())
}

/// Appends a note, if there is one. If there is one and the buffer is full, it returns `AllocError`, and the notes
/// are unchanged.
#[inline]
pub fn push_if_any<N: Drop>(
    notes: &mut HeapCircularBuffer<N>,
    note: Option<N>,
) -> Result<(), AllocError>
    ensures ok { OnOk result (notes.new.items ≡ notes.old.items ++ option_to_list note) }
    ensures err { OnErr result (notes.new.items ≡ notes.old.items) }
    ensures full { IsErr result → notes.old.capacity ≤ length notes.old.items }
    ensures none { note ≡ None → IsOk result }
    ensures capacity { notes.new.capacity ≡ notes.old.capacity }
{
    match note {
        Some(note) => push_note(notes, note),
        None => Ok(()),
    }
}

/// Removes and returns the first note, if it is below a position.
#[inline]
pub fn pop_below<N: PacketNote>(notes: &mut HeapCircularBuffer<N>, mark: u64) -> Option<N>
    ensures taken { IfSome result (λ note. (notes.old.items ≡ note ∷ notes.new.items) × (N.place note < mark)) }
    ensures left { IfNone result ((notes.new.items ≡ notes.old.items) × StartsFrom N.place mark notes.old.items) }
    ensures capacity { notes.new.capacity ≡ notes.old.capacity }
{
    if notes.front()?.at() >= mark {
        return None;
    }
    notes.pop_front()
}

/// Removes the notes below a position, and returns how many they were.
pub fn drop_below<N: PacketNote>(notes: &mut HeapCircularBuffer<N>, mark: u64) -> u64
    ensures takes { TakesBelow N.place mark notes.old.items notes.new.items }
    ensures count { result + length notes.new.items ≡ length notes.old.items }
    ensures capacity { notes.new.capacity ≡ notes.old.capacity }
{
    let before = notes.len();
    while let Some(_note) = pop_below(notes, mark) {}
    (before - notes.len()) as u64
}

/// Appends the lines of the notes below a position. Out of memory the lines are unchanged.
pub fn push_lines_below<N: LineNote>(
    lines: &mut Vec<Line>,
    notes: &HeapCircularBuffer<N>,
    mark: u64,
) -> Result<(), AllocError>
    ensures ok { OnOk result (lines.new.items ≡ lines.old.items
        ++ map N.line_of (take_while (λ note. nat_lt (N.place note) mark) notes.now.items)) }
    ensures err { OnErr result (lines.new.items ≡ lines.old.items) }
{
    let mut more = lines_below(*lines.allocator(), notes, mark)?;
    lines.append(&mut more)?;
    Ok(())
}

// The lines of the notes below a position.
fn lines_below<N: LineNote>(
    alloc: Global,
    notes: &HeapCircularBuffer<N>,
    mark: u64,
) -> Result<Vec<Line>, AllocError>
    ensures { IfOk result (λ lines. lines.items ≡ map N.line_of (take_while (λ note. nat_lt (N.place note) mark) notes.now.items)) }
{
    let mut lines = Vec::new(alloc);
    for note in notes.iter() {
        if note.at() >= mark {
            break;
        }
        lines.push(note.line(alloc)?)?;
    }
    Ok(lines)
}
