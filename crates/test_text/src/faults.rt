//! Checks that several tests use: of what is compiled, and of faults.

use crate::compared::{got, same, same_text};
use std::process::Abort;
use tabcomp_core::{CompileFault, compile};
use ts_jtree::{JsonFault, JsonKind};

/// The bytes that a text is compiled to.
pub(crate) fn compiled(rt: &(impl Abort + AllocGlobal), text: &[u8]) -> Vec<u8> {
    got(rt, compile(rt.alloc(), text))
}

/// The fault of a text that is JSON, and not a text of tables; `None` if it is no JSON.
fn json_fault(rt: &(impl Abort + AllocGlobal), text: &[u8]) -> Option<JsonFault> {
    match compile(rt.alloc(), text) {
        Err(CompileFault::NotJson) => None,
        Err(CompileFault::Json(fault)) => Some(fault),
        _ => rt.panic("no such fault"),
    }
}

/// Checks that a text is not JSON.
pub(crate) fn is_no_json(rt: &(impl Abort + AllocGlobal), text: &[u8]) {
    same(rt, json_fault(rt, text).is_none(), true);
}

/// Checks all that a fault reports.
pub(crate) fn tells(rt: &impl Abort, fault: &JsonFault, path: &[usize], key: &str, kind: JsonKind) {
    same(rt, (fault.path.as_slice(), fault.kind), (path, kind));
    same_text(rt, fault.key.as_str(), key);
}

/// Checks all that the fault of a text reports that is JSON, and not a text of tables.
pub(crate) fn is_told(
    rt: &(impl Abort + AllocGlobal),
    text: &[u8],
    path: &[usize],
    key: &str,
    kind: JsonKind,
) {
    let fault = got(rt, json_fault(rt, text).ok_or("JSON"));
    tells(rt, &fault, path, key, kind);
}
