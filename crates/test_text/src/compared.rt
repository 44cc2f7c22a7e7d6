//! Comparisons for the tests. An assertion that is written out has many steps, and a call of these has one.

ghost use Rattle.std.specs.Prelude.{◌≡◌, Ok};

use std::fmt::Debug;
use std::process::Abort;

/// Checks that a value is the expected one.
pub(crate) fn same<T: Copy + PartialEq + Debug>(rt: &impl Abort, found: T, wanted: T) {
    assert_eq!(rt; found, wanted);
}

/// Checks that bytes are the expected ones.
pub(crate) fn same_bytes(rt: &impl Abort, found: &[u8], wanted: &[u8]) {
    assert_eq!(rt; found, wanted);
}

/// Checks that a text is the expected one.
pub(crate) fn same_text(rt: &impl Abort, found: &str, wanted: &str) {
    assert_eq!(rt; found, wanted);
}

/// The value of a call that has to succeed. Aborts with its error otherwise: a `?` in its place is one more way out, on
/// which all that the caller holds is dropped.
pub(crate) fn got<T, E: Debug>(rt: &impl Abort, made: Result<T, E>) -> T
    ensures { made ≡ Ok result }
{
    match made {
        Ok(value) => value,
        Err(error) => rt.panic(format_args!("error: {error:?}")),
    }
}
