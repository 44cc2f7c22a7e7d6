//! Adjacent values, as a token of no bytes, and a `Vec` that is lodged over them.
ghost use Rattle.std.specs.Prelude.{◌≡◌, ◌+◌, ◌*◌, ◌<◌, ◌≤◌, ◌^◌, ℕ, List, length, take, drop, ◌++◌};
ghost use Rattle.std.specs.Vec.{vec_len, vec_ptr, vec_capacity};
ghost use Rattle.std.specs.Mem.{type_size};
ghost use denote.RawPtr.{Ptr, ◌+ₚ◌};
ghost use Rattle.ts_land.specs.Ownership.{span_owns};

use std::marker::{Model, PhantomData};
use std_alloc::vec::{Lodged, lodge};

// The values at `ptr`, to which nothing else has access.
pub(crate) struct Span<T> {
    pub(crate) marker: PhantomData<T>,
    ghost ptr: { Ptr },
    ghost items: { List T },
}

impl<T> Model for Span<T> {
    ghost also_owns = { λ r. span_owns T.row r.ptr r.items };
}

// It may be sent to another thread, since it alone owns what it points to.
unsafe impl<T: Send> Send for Span<T> {}

impl<T> Span<T> {
    // Splits the span into the first `mid` values and the others.
    pub(crate) fn cut(self, mid: usize) -> (Span<T>, Span<T>)
        requires { mid ≤ length self.items }
        ensures front { (result.0.ptr ≡ self.ptr) × (result.0.items ≡ take mid self.items) }
        ensures back { (result.1.ptr ≡ self.ptr +ₚ mid * type_size T.row)
            × (result.1.items ≡ drop mid self.items) }
    {
        let Span { marker: _ } = self;
        (
            Span {
                marker: PhantomData,
            },
            Span {
                marker: PhantomData,
            },
        )
    }

    // Joins two spans, if the other one lies just after this one.
    pub(crate) fn glue(self, other: Span<T>) -> Span<T>
        requires beside { other.ptr ≡ self.ptr +ₚ length self.items * type_size T.row }
        requires fits { (length self.items + length other.items) * type_size T.row < 2 ^ 63 }
        ensures { (result.ptr ≡ self.ptr) × (result.items ≡ self.items ++ other.items) }
    {
        let Span { marker: _ } = self;
        let Span { marker: _ } = other;
        Span {
            marker: PhantomData,
        }
    }
}

// A `Vec` over the span, which neither grows nor frees it.
pub(crate) fn vec_over<T>(ptr: *mut T, len: usize, span: Span<T>) -> Vec<T, Lodged>
    requires { (span.ptr ≡ ptr) × (length span.items ≡ len) × (len < 2 ^ 63) }
    ensures { (result.items ≡ span.items) × (vec_len result ≡ len)
        × (vec_ptr result ≡ ptr) × (vec_capacity result ≡ len) }
{
    let Span { marker: _ } = span;
    unsafe { lodge(ptr, len, len) }
}

// The span that a `Vec` was lodged over.
pub(crate) fn span_of<T>(vec: Vec<T, Lodged>) -> Span<T>
    requires { vec_capacity vec ≡ vec_len vec }
    ensures { (result.ptr ≡ vec_ptr vec) × (result.items ≡ vec.items) }
{
    let _len = vec.dislodge();
    Span {
        marker: PhantomData,
    }
}
