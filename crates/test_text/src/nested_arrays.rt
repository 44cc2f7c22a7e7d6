//! Texts of nested arrays: JSON is read to a depth of 127.
use crate::compared::got;
use crate::faults::{is_no_json, is_told};
use std::alloc::AllocError;
use std::process::Abort;
use ts_jtree::JsonKind;

/// Appends this number of arrays, each in the one before.
fn push_nested(text: &mut Vec<u8>, depth: usize) -> Result<(), AllocError> {
    for _ in 0..depth {
        text.push(b'[')?;
    }
    for _ in 0..depth {
        text.push(b']')?;
    }
    Ok(())
}

/// The text of these arrays.
fn nested(rt: &(impl Abort + AllocGlobal), depth: usize) -> Vec<u8> {
    let mut text = Vec::new(rt.alloc());
    got(rt, push_nested(&mut text, depth));
    text
}

/// Checks that nested arrays are read as JSON, and that the fault is that the value itself is not an element.
fn are_read(rt: &(impl Abort + AllocGlobal), depth: usize) {
    is_told(rt, &nested(rt, depth), &[], "#name", JsonKind::WrongKind);
}

#[test]
fn nested_arrays(rt: HostRuntime) {
    are_read(&rt, 1);
    are_read(&rt, 127);
    is_no_json(&rt, &nested(&rt, 128));
    is_no_json(&rt, &nested(&rt, 1000));
}
