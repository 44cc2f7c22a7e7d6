//! What is said of the first fault of a JSON value, and where it is, as a pointer (RFC 6901).
use crate::known::{place_of, put_form, put_known_elements, put_known_keys};
use serde_json::Value;
use std::alloc::{AllocError, Global};
use ts_jtree::{JsonFault, JsonKind};

// What is wrong with an element itself.
fn element_text(is_root: bool, kind: JsonKind) -> &'static str {
    match kind {
        JsonKind::Missing => "missing key\n",
        JsonKind::WrongKind => "not an object whose #name is a string\n",
        JsonKind::OutOfRange => "more than 255 bytes in a descriptor\n",
        JsonKind::UnknownKey if is_root =>
            "unknown element: the #name of the outermost one is tsduck\n",
        JsonKind::UnknownKey => "unknown element, or not allowed here\n",
    }
}

// What is wrong with another key.
fn key_text(kind: JsonKind) -> &'static str {
    match kind {
        JsonKind::Missing => "missing key\n",
        JsonKind::WrongKind => "value of the wrong kind\n",
        JsonKind::OutOfRange => "value out of range\n",
        JsonKind::UnknownKey => "unknown key\n",
    }
}

// Puts a key as a step of a pointer. A control character is a question mark.
fn put_key(text: &mut String, key: &str) -> Result<(), AllocError> {
    for character in key.chars() {
        match character {
            '~' => text.push_str("~0")?,
            '/' => text.push_str("~1")?,
            other => text.push(if other.is_control() { '?' } else { other })?,
        }
    }
    Ok(())
}

// Puts what may be at the place of a fault, by the text in which it is.
fn put_may_stand(
    alloc: Global,
    text: &mut String,
    fault: &JsonFault,
    file: &[u8],
) -> Result<(), AllocError> {
    let Ok(file) = str::from_utf8(file) else {
        return Ok(());
    };
    let Ok(root) = Value::from_str(alloc, file) else {
        return Ok(());
    };
    let key = fault.key.as_str();
    let place = place_of(&root, fault.path.as_slice());
    match fault.kind {
        JsonKind::UnknownKey if key == "#name" => put_known_elements(text, place),
        JsonKind::UnknownKey => put_known_keys(text, place),
        _ => put_form(text, place, key),
    }
}

/// The place of the fault, and what is wrong there, in one line; and in another one what may be there, where the text was kept
/// and the pages of tables and descriptors tell it.
pub(crate) fn json_text(
    alloc: Global,
    fault: &JsonFault,
    file: Option<&[u8]>,
) -> Result<String, AllocError> {
    let key = fault.key.as_str();
    let path = fault.path.as_slice();
    let mut text = String::new(alloc);
    for place in path {
        write!(text, "/#nodes/{place}")?;
    }
    text.push('/')?;
    put_key(&mut text, key)?;
    text.push_str(": ")?;
    text.push_str(if key == "#name" {
        element_text(path.is_empty(), fault.kind)
    } else {
        key_text(fault.kind)
    })?;
    if let Some(file) = file {
        put_may_stand(alloc, &mut text, fault, file)?;
    }
    Ok(text)
}
