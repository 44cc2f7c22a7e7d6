//! Work on two slices at once.
ghost use Rattle.std.specs.Fork.{AcceptsAt, ChangesAt};
ghost use Rattle.std.specs.Thread.{IsSync};
ghost use denote.Param.Send.{IsSend};

use std::marker::{Send, Sync};
use std::thread::{Threads, join_mut};

/// Calls `f` with a number and a slice.
fn at_one<T, F: Fn(usize, &mut [T])>(f: &F, number: usize, xs: &mut [T])
    requires { AcceptsAt F.Fn f.now number xs.old }
    ensures { ChangesAt F.Fn f.now number xs.old xs.new }
{
    f(number, xs);
}

/// Calls `f(0, first)` in a thread of its own and `f(1, second)` in the caller's. Where no thread can be started, the caller
/// makes both calls, that with 0 last.
pub(crate) fn on_both<R: Threads + Sync, T: Send, F: Fn(usize, &mut [T]) + Sync>(
    rt: &R,
    f: &F,
    first: &mut [T],
    second: &mut [T],
)
    requires first { AcceptsAt F.Fn f.now 0 first.old }
    requires second { AcceptsAt F.Fn f.now 1 second.old }
    ensures first { ChangesAt F.Fn f.now 0 first.old first.new }
    ensures second { ChangesAt F.Fn f.now 1 second.old second.new }
{
    let mut front = ||
        requires { IsSync F.row × IsSend T.row × AcceptsAt F.Fn f.now 0 first.now }
        ensures { ChangesAt F.Fn f.entry.now 0 first.entry.now first.exit.now }
    { at_one(f, 0, first) };
    let mut back = ||
        requires { IsSync F.row × IsSend T.row × AcceptsAt F.Fn f.now 1 second.now }
        ensures { ChangesAt F.Fn f.entry.now 1 second.entry.now second.exit.now }
    { at_one(f, 1, second) };
    join_mut(rt, &mut front, &mut back);
}
