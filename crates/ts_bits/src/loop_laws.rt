//! Laws of loops of descriptors: bytes are whole descriptors in one way only, or one of them is cut.

ghost use Rattle.std.specs.Prelude.{◌≡◌, ℕ, List, Ok, Err};
ghost use Rattle.ts_bits.specs.DescriptorLoop.{descriptors_of, IsCutAt};
ghost use Rattle.ts_bits.specs.TaggedBody.{TaggedBody, loop_bytes};

/// What is written as a loop is read again, what is read was written so, and where a descriptor is
/// cut, whole ones are before it. A law; it runs nothing.
pub fn loops_are_whole_or_cut()
    ensures again { (ds : List TaggedBody) → descriptors_of (loop_bytes ds) ≡ Ok ds }
    ensures whole { (row : List ℕ) (ds : List TaggedBody) → descriptors_of row ≡ Ok ds → loop_bytes ds ≡ row }
    ensures cut { (row : List ℕ) (offset : ℕ) → descriptors_of row ≡ Err offset → IsCutAt row offset }
{}
