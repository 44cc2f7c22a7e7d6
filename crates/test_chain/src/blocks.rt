//! Tests of blocks of values that are split and joined.

use crate::compared::{same, same_bytes};
use ts_land::land;

#[test]
fn cuts_and_joins(rt: HostRuntime) {
    let window = land(rt.alloc(), 7, 3u8).expect(&rt, "memory");
    let (one, two) = window.split(3);
    let _base = one.base();
    same(&rt, (two.start(), two.len()), (3, 4));
    let (two, three) = two.split(2);
    let mut two = two.join(three);
    two.as_mut_slice()[1] = 9;
    let all = one.join(two);
    same_bytes(&rt, all.as_slice(), &[3, 3, 3, 3, 9, 3, 3]);
    all.close();
}
