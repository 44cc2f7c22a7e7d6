//! The owner of a block: a `Vec` whose values are taken out, with its memory and the right to free it.
//!
//! It goes with the block's first value. A counter of windows, or an owner beside them, would have to be handed round
//! too; so a window of all slots always has what `close` needs.
ghost use Rattle.std.specs.Prelude.{◌≡◌, ◌<◌, ℕ, List, length};
ghost use Rattle.std.specs.Vec.{with_items, vec_len, vec_ptr};
ghost use base.Fml.{ftrue, fex, fall, fwand, fsep, feq};
ghost use Rattle.ts_land.specs.Ownership.{Extent, extent_code, span_owns};

use crate::span::Span;
use std::alloc::Allocator;
use std::marker::{Move, Owns, PhantomData};

// A `Vec` without its values. With as many values at its place it is the `Vec` again.
pub(crate) struct Owner<T, A: Allocator> {
    vec: Vec<T, A>,
}

impl<T, A: Allocator> Owns for Owner<T, A> {
    ghost Value = { Extent };

    ghost coded = { extent_code };

    // A shared reference to it gives access to nothing.
    ghost shr_at = { λ _ _ _. ftrue };
}

impl<T, A: Allocator> Move for Owner<T, A> {
    ghost own_val = { λ e vs. fex Inside (λ v. fsep (feq ℕ v.vec.len e.len)
        (fall (List T.row.Denot) (λ xs. fwand (fsep (feq ℕ (length xs) e.len) (span_owns T.row e.ptr xs))
        (Fields.own_val (record { vec = with_items v.vec xs }) vs)))) };
}

// It may be sent to another thread, since it alone owns what it frees.
unsafe impl<T: Send, A: Allocator + Send> Send for Owner<T, A> {}

// Takes the values out of a `Vec`; the owner is what stays of it.
pub(crate) fn take_out<T, A: Allocator>(vec: Vec<T, A>) -> (Span<T>, Owner<T, A>)
    requires { 0 < vec_len vec }
    ensures { (result.0.ptr ≡ vec_ptr vec) × (result.0.items ≡ vec.items)
        × (result.1.ptr ≡ vec_ptr vec) × (result.1.len ≡ vec_len vec) }
{
    (
        Span {
            marker: PhantomData,
        },
        Owner { vec },
    )
}

// Puts the values back, and returns the `Vec`.
pub(crate) fn put_back<T, A: Allocator>(span: Span<T>, owner: Owner<T, A>) -> Vec<T, A>
    requires { (span.ptr ≡ owner.ptr) × (length span.items ≡ owner.len) }
    ensures { result.items ≡ span.items }
{
    let Span { marker: _ } = span;
    let Owner { vec } = owner;
    vec
}
