//! Laws of bits. The functions run nothing; they are called for what they ensure.

ghost use Rattle.std.specs.Prelude.{◌≡◌, ◌*◌, ◌%◌, ◌^◌, ◌<◌, ◌++◌, List, ℕ, Bool, length, true, Some};
ghost use Rattle.ts_fields.specs.Bits.{bits, bits_of};
ghost use Rattle.ts_fields.specs.Fitting.{are_bytes};
ghost use Rattle.ts_fields.specs.Reading.{read_number, read_bytes};

/// Bytes are equal where their bits are. A law; it runs nothing.
pub fn bits_tell_bytes()
    ensures { (a b : List ℕ) → are_bytes a ≡ true → are_bytes b ≡ true → bits_of a ≡ bits_of b → a ≡ b }
{}

/// The number of bits of a number and of bytes. A law; it runs nothing.
pub fn length_of_bits()
    ensures number { (count value : ℕ) → length (bits count value) ≡ count }
    ensures bytes { (row : List ℕ) → length (bits_of row) ≡ 8 * length row }
{}

/// The bits of a number, read again, give the number modulo 2^count. A law; it runs nothing.
pub fn spelled_number_is_read()
    ensures { (count value : ℕ) (rest : List Bool)
        → read_number count (bits count value ++ rest) ≡ Some (value % 2 ^ count, rest) }
{}

/// The bits that were read as a number are the bits of that number, which is below 2^count. A law; it runs nothing.
pub fn read_number_is_spelled()
    ensures { (count value : ℕ) (from rest : List Bool) → read_number count from ≡ Some (value, rest)
        → (from ≡ bits count value ++ rest) × (value < 2 ^ count) }
{}

/// The bits of bytes, read again, give the bytes. A law; it runs nothing.
pub fn spelled_bytes_are_read()
    ensures { (row : List ℕ) (rest : List Bool) → are_bytes row ≡ true
        → read_bytes (length row) (bits_of row ++ rest) ≡ Some (row, rest) }
{}

/// The bits that were read as bytes are the bits of these bytes. A law; it runs nothing.
pub fn read_bytes_are_spelled()
    ensures { (count : ℕ) (row : List ℕ) (from rest : List Bool) → read_bytes count from ≡ Some (row, rest)
        → (from ≡ bits_of row ++ rest) × (length row ≡ count) × (are_bytes row ≡ true) }
{}
