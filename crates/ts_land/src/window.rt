//! Windows of a block of values.
//!
//! A window says where its block begins (`base`), as a pointer to which it gives no right: whoever holds several
//! windows compares it to see that they are of one block.
ghost use Rattle.std.specs.Prelude.{◌≡◌, ◌+◌, ◌*◌, ◌<◌, ◌≤◌, ◌^◌, List, length, take, drop, ◌++◌, replicate, IfOk, None, ◌⊎◌};
ghost use Rattle.std.specs.Option.{option_or};
ghost use Rattle.std.specs.Borrow.{Lends, Array, sem};
ghost use Rattle.ts_land.specs.Pieces.{piece_of, with_cells};
ghost use Rattle.ts_land.specs.contracts.window.Window.{the_row};

use crate::Slot;
use crate::owner::{Owner, put_back, take_out};
use crate::span::{span_of, vec_over};
use std::alloc::{AllocError, Global};
use std::marker::Model;
use std_alloc::vec::Lodged;

/// Adjacent values of one block, to which nothing else has access.
///
/// Contracts see its block, the slot of its first value, and its values. The windows of a block have to be joined
/// until one of them is the whole block, which `close` frees. No method allocates.
pub struct Window<T: Slot> {
    pub(crate) cells: Vec<T, Lodged>,
    pub(crate) start: usize,
    pub(crate) base: *mut T,
    pub(crate) count: usize,
    // The block's owner, in the window that has its first value.
    pub(crate) owner: Option<Owner<T, Global>>,
}

impl<T: Slot> Model for Window<T> {
    ghost use Rattle.std.specs.Prelude.{◌≡◌, ◌+◌, ◌*◌, ◌^◌, ◌<◌, ◌≤◌, is_some};
    ghost use Rattle.std.specs.Vec.{vec_len, vec_ptr, vec_capacity};
    ghost use denote.RawPtr.{InBlock, ◌+ₚ◌};
    ghost use Rattle.ts_land.specs.Pieces.{Piece, piece_code, piece_of, has_first, IsOwnerOf};

    ghost Value = { Piece T };

    ghost coded = { piece_code T.code };

    ghost view = { λ w. piece_of (record { base = w.base; count = w.count }) w.start w.cells.items };

    ghost invariant = { λ w. (vec_ptr w.cells ≡ w.base +ₚ w.start * T.bytes)
        × (vec_capacity w.cells ≡ vec_len w.cells)
        × (w.start + vec_len w.cells ≤ w.count)
        × (0 < w.count) × (w.count < 2 ^ 63) × (w.count * T.bytes < 2 ^ 63) × InBlock w.base
        × (is_some w.owner ≡ has_first w.start (vec_len w.cells)) × IsOwnerOf w.base w.count w.owner };
}

// It may be sent to another thread, since it alone owns what it points to.
unsafe impl<T: Slot + Send> Send for Window<T> {}

impl<T: Slot> Window<T> {
    /// Splits the window into the first `n` values and the others. Either may be empty.
    pub fn split(self, n: usize) -> (Window<T>, Window<T>)
        requires within { n ≤ length self.cells }
        ensures front { result.0 ≡ piece_of self.land self.start (take n self.cells) }
        ensures back { result.1 ≡ piece_of self.land (self.start + n) (drop n self.cells) }
    {
        // A law, which runs nothing.
        T::size_law();
        let Window {
            mut cells,
            start,
            base,
            count,
            owner,
        } = self;
        let len = cells.len();
        let ptr = cells.as_mut_ptr();
        let (front, back) = span_of(cells).cut(n);
        let next = unsafe { ptr.byte_add(n * size_of::<T>()) };
        let (one, other) = if n > 0 { (owner, None) } else { (None, owner) };
        (
            Window {
                cells: vec_over(ptr, n, front),
                start,
                base,
                count,
                owner: one,
            },
            Window {
                cells: vec_over(next, len - n, back),
                start: start + n,
                base,
                count,
                owner: other,
            },
        )
    }

    /// Joins two windows, if the other one begins in the slot in which this one ends.
    pub fn join(self, other: Window<T>) -> Window<T>
        requires land { other.land ≡ self.land }
        requires beside { other.start ≡ self.start + length self.cells }
        ensures { result ≡ piece_of self.land self.start (self.cells ++ other.cells) }
    {
        // A law, which runs nothing.
        T::size_law();
        let Window {
            mut cells,
            start,
            base,
            count,
            owner: one,
        } = self;
        let Window {
            cells: more,
            start: _,
            base: _,
            count: _,
            owner: another,
        } = other;
        let len = cells.len() + more.len();
        let ptr = cells.as_mut_ptr();
        let span = span_of(cells).glue(span_of(more));
        Window {
            cells: vec_over(ptr, len, span),
            start,
            base,
            count,
            owner: either(one, another),
        }
    }

    /// The values of the window.
    pub fn as_slice(&self) -> &[T]
        ensures { result.now ≡ self.now.cells }
    {
        self.cells.as_slice()
    }

    /// The values, which may be changed in place. What is written through the slice is what the window then has.
    pub fn as_mut_slice(&mut self) -> &mut [T]
        ensures* writes_back { sem 𝓛
            (Lends (the_row T.row T.Slot) (Array T.row 0) self.entry result (with_cells self.old)) }
        ensures value { result.now ≡ self.old.cells }
    {
        self.cells.as_mut_slice()
    }

    /// How many values the window has.
    pub fn len(&self) -> usize
        ensures { result ≡ length self.now.cells }
    {
        self.cells.len()
    }

    /// The slot of its first value, from 0 on; of an empty window the slot in which a value would be.
    pub fn start(&self) -> usize
        ensures { result ≡ self.now.start }
    {
        self.start
    }

    /// The address of its block. It identifies the block, and gives no access to it.
    pub fn base(&self) -> *mut T
        ensures { result ≡ self.now.land.base }
    {
        self.base
    }

    /// Frees the block. The window has to have all its slots.
    pub fn close(self)
    where
        T: Drop,
        requires whole { length self.cells ≡ self.land.count }
    {
        let Window {
            cells,
            start: _,
            base: _,
            count: _,
            owner,
        } = self;
        match owner {
            Some(owner) => drop(put_back(span_of(cells), owner)),
            None => unreachable!(),
        }
    }
}

// The one that there is, if at most one of them is.
fn either<T>(
    one: Option<Owner<T, Global>>,
    another: Option<Owner<T, Global>>,
) -> Option<Owner<T, Global>>
    requires { one ≡ None ⊎ another ≡ None }
    ensures { result ≡ option_or one another }
{
    match one {
        None => another,
        Some(owner) => match another {
            None => Some(owner),
            Some(_) => unreachable!(),
        },
    }
}

/// A block of `n` values, in one window. Only this call allocates; out of memory it returns `AllocError`.
///
/// A clone of the value has to be equal to the value, since each slot gets one.
pub fn land<T: Slot + Clone>(alloc: Global, n: usize, value: T) -> Result<Window<T>, AllocError>
    requires some { 0 < n }
    requires plain { (y : T) → T.is_clone value y → y ≡ value }
    ensures { IfOk result (λ w. (w.start ≡ 0) × (w.cells ≡ replicate n value) × (w.land.count ≡ n)) }
{
    // A law, which runs nothing.
    T::size_law();
    let mut vec = vec![in alloc; value; n]?;
    let base = vec.as_mut_ptr();
    let (span, owner) = take_out(vec);
    Ok(Window {
        cells: vec_over(base, n, span),
        start: 0,
        base,
        count: n,
        owner: Some(owner),
    })
}
