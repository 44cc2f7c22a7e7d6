//! The types whose values may lie in a block.
//!
//! A window says where it is by its slot and the size of a value, and the invariant of a type cannot ask for the size
//! of a type parameter. So the size is a member of this small trait, which every type has.
ghost use Rattle.std.specs.Prelude.{◌≡◌, ℕ};
ghost use Rattle.std.specs.Mem.{type_size};

/// A type whose values may lie next to each other in a block: every type of a known size.
///
/// It names the size in bytes, from which a window knows its address.
pub trait Slot: Sized {
    /// How many bytes a value takes.
    ghost bytes: { ℕ };

    /// A law; it runs nothing. A value takes `bytes` bytes.
    fn size_law()
        ensures { type_size Self.row ≡ bytes };
}

impl<T> Slot for T {
    ghost bytes = { type_size T.row };

    fn size_law() {}
}
