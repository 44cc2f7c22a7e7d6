//! Codes of languages and countries.

ghost use Rattle.std.specs.Prelude.{◌≡◌, ◌&&◌, true, length, nat_eq, Some, None, if◌then◌else◌, IfOk};
ghost use Rattle.ts_fields.specs.Reading.{are_printable};

use std::alloc::{AllocError, Global};
use std::marker::Model;
use ts_fields::are_printable;

/// The code of a language or a country: three bytes, each in 0x20 to 0x7E. Contracts see the bytes.
#[derive(Clone, Copy, PartialEq, Eq)]
pub struct LanguageCode {
    letters: [u8; 3],
}

impl Model for LanguageCode {
    ghost use Rattle.std.specs.Prelude.{◌≡◌, ◌&&◌, ℕ, List, true, length, nat_eq};
    ghost use Rattle.ts_fields.specs.Reading.{are_printable};

    ghost Value = { List ℕ };

    ghost view = { λ c. c.letters };

    ghost invariant = { λ c. (nat_eq (length c.letters) 3 && are_printable c.letters) ≡ true };

    ghost inverse = { λ letters. record { letters = letters } };
}

impl LanguageCode {
    /// The code of these bytes; `None` where they are not three bytes, each in 0x20 to 0x7E.
    pub fn of(bytes: &[u8]) -> Option<LanguageCode>
        ensures { result
            ≡ (if nat_eq (length bytes.now) 3 && are_printable bytes.now then Some bytes.now else None) }
    {
        let [first, second, third] = bytes else {
            return None;
        };
        if !are_printable(bytes) {
            return None;
        }
        Some(LanguageCode {
            letters: [*first, *second, *third],
        })
    }

    /// The bytes of the code.
    pub fn letters(&self) -> [u8; 3]
        ensures bytes { result ≡ self.now }
        ensures valid { (nat_eq (length self.now) 3 && are_printable self.now) ≡ true }
    {
        self.letters
    }

    /// The bytes of the code as a `Vec`.
    pub fn to_vec(&self, alloc: Global) -> Result<Vec<u8>, AllocError>
        ensures bytes { IfOk result (λ v. v.items ≡ self.now) }
        ensures valid { (nat_eq (length self.now) 3 && are_printable self.now) ≡ true }
    {
        Vec::from_slice(alloc, &self.letters)
    }
}
