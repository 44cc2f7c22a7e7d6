//! Comparisons of the tests. An assertion written out has many steps, and a call of these has one.

use std::fmt::Debug;
use std::process::Abort;

/// Aborts unless a value is the expected one.
pub(crate) fn same<T: Copy + PartialEq + Debug>(rt: &impl Abort, found: T, wanted: T) {
    assert_eq!(rt; found, wanted);
}

/// Aborts unless a condition holds.
pub(crate) fn holds(rt: &impl Abort, what: bool) {
    assert!(rt; what);
}

/// Aborts unless bytes are the expected ones.
pub(crate) fn same_bytes(rt: &impl Abort, found: &[u8], wanted: &[u8]) {
    assert_eq!(rt; found, wanted);
}
