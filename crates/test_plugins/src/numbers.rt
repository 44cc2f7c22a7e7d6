//! Tests of sets of numbers and labels.
use crate::compared::same;
use plugin_options::NumberSet;
use std::process::Abort;
use std::test::Fail;

/// Checks which numbers a set of 5 to 7 and 9 has.
fn has_numbers(rt: &impl Abort, set: &NumberSet) {
    let found = [set.has(4), set.has(5), set.has(7), set.has(8), set.has(9)];
    same(rt, found, [false, true, true, false, true]);
    same(rt, (set.is_empty(), set.as_slice().len()), (false, 2));
}

/// Checks which labels they are.
fn has_labels(rt: &impl Abort, set: &NumberSet) {
    let labels = set.labels();
    let found = [labels.has(4), labels.has(5), labels.has(8), labels.has(9)];
    same(rt, found, [false, true, false, true]);
}

#[test]
fn numbers_of_ranges(rt: HostRuntime) -> Result<(), Fail> {
    let set = NumberSet::of(vec![in rt.alloc(); (5, 7), (9, 9)]?);
    has_numbers(&rt, &set);
    has_labels(&rt, &set);
    Ok(())
}
