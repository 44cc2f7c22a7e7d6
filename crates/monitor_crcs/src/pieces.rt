//! The pieces of a stretch, cut from its front by section_length.

ghost use Rattle.std.specs.Prelude.{◌≡◌, ℕ, ◌≤◌, ◌↔◌, ◌++◌, List, true, false, length, drop, IsSome, IfSome, IfOk, OnOk};
ghost use Rattle.ts_demux.specs.Cut.{is_whole_in_front};
ghost use Rattle.ts_demux.specs.Cut as cutting;
ghost use Rattle.ts_demux.specs.Pieces.{IsOver, IsAlive};
ghost use Rattle.monitor_crcs.specs.WrongCrcs.{told_in, told_piece};

use crate::piece::{is_spoiled, section_length, table_id};
use crate::tables::is_told;
use std::alloc::AllocError;
use std::collections::VecDeque;

/// The bytes up to and with section_length.
const HEAD: usize = 3;

/// The most that section_length may be.
const MOST_LENGTH: usize = 4093;

/// The byte instead of a table_id where stuffing begins.
const STUFFING: u8 = 0xFF;

/// Cuts the whole pieces off the front of unfinished bytes, and lets the table_ids of those with a wrong CRC wait. Returns
/// whether nothing more comes of the rest, whatever follows it; the bytes are not needed then.
pub(crate) fn cut_off(
    unfinished: &mut Vec<u8>,
    waiting: &mut VecDeque<u8>,
) -> Result<bool, AllocError>
    ensures over { IfOk result (λ over. over ≡ true → (more : List ℕ) →
        waiting.old.items ++ told_in (unfinished.old.items ++ more) ≡ waiting.new.items) }
    ensures not_whole { IfOk result (λ over. over ≡ false → is_whole_in_front unfinished.new.items ≡ false) }
    ensures alive { IfOk result (λ over. over ≡ false → IsAlive unfinished.new.items) }
    ensures told { IfOk result (λ over. over ≡ false → (more : List ℕ) →
        waiting.old.items ++ told_in (unfinished.old.items ++ more)
        ≡ waiting.new.items ++ told_in (unfinished.new.items ++ more)) }
    ensures grows { OnOk result (length waiting.old.items ≤ length waiting.new.items) }
{
    let at = cut_pieces(unfinished.as_slice(), waiting)?;
    // Stuffing follows most pieces, and is not moved to the front.
    if is_over(&unfinished[at..]) {
        return Ok(true);
    }
    drop_front(unfinished, at);
    Ok(false)
}

// Drops the first bytes.
fn drop_front(bytes: &mut Vec<u8>, count: usize)
    requires { count ≤ length bytes.old.items }
    ensures { bytes.new.items ≡ drop count bytes.old.items }
{
    // If all of it goes, as where a section fills its packet, there is nothing for `drain` to move.
    if count == bytes.len() {
        bytes.clear();
    } else {
        bytes.drain(..count);
    }
}

// Cuts off the whole pieces at the front, and lets the table_ids of those with a wrong CRC wait. Returns how many bytes they
// had.
fn cut_pieces(bytes: &[u8], waiting: &mut VecDeque<u8>) -> Result<usize, AllocError>
    ensures within { IfOk result (λ at. at ≤ length bytes.now) }
    ensures no_more { IfOk result (λ at. is_whole_in_front (drop at bytes.now) ≡ false) }
    ensures told { IfOk result (λ at. (more : List ℕ) →
        waiting.old.items ++ told_in (bytes.now ++ more)
        ≡ waiting.new.items ++ told_in (drop at bytes.now ++ more)) }
    ensures grows { OnOk result (length waiting.old.items ≤ length waiting.new.items) }
{
    let mut at = 0;
    while let Some(size) = whole_in_front(&bytes[at..]) {
        take_piece(&bytes[at..at + size], waiting)?;
        at += size;
    }
    Ok(at)
}

// Whether nothing more comes of these bytes, whatever follows them: they begin with stuffing or with a
// section_length that is too great.
fn is_over(bytes: &[u8]) -> bool
    ensures over { result ≡ true → IsOver bytes.now }
    ensures alive { result ≡ false → IsAlive bytes.now }
{
    if !bytes.is_empty() && table_id(bytes) == STUFFING {
        return true;
    }
    HEAD <= bytes.len() && MOST_LENGTH < section_length(bytes)
}

// The size of the piece at the front, if it is complete.
fn whole_in_front(bytes: &[u8]) -> Option<usize>
    ensures whole { IsSome result ↔ (is_whole_in_front bytes.now ≡ true) }
    ensures size { IfSome result (λ size. size ≡ cutting.size_in_front bytes.now) }
    ensures within { IfSome result (λ size. (size ≤ length bytes.now) × (3 ≤ size)) }
{
    if bytes.len() < HEAD || is_over(bytes) {
        return None;
    }
    let size = HEAD + section_length(bytes);
    if size <= bytes.len() {
        Some(size)
    } else {
        None
    }
}

// Lets the table_id of a piece wait, if its CRC is wrong and that is an error.
#[tactic(auto, unfolding(crate::specs::WrongCrcs::told_piece))]
fn take_piece(piece: &[u8], waiting: &mut VecDeque<u8>) -> Result<(), AllocError>
    requires { length piece.now ≡ cutting.size_in_front piece.now }
    ensures { OnOk result (waiting.new.items ≡ waiting.old.items ++ told_piece piece.now) }
{
    let table = table_id(piece);
    if is_told(table) && is_spoiled(piece) {
        waiting.push_back(table)?;
    }
    Ok(())
}
