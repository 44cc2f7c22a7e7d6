//! Work on two rows at once.
ghost use Rattle.std.specs.Thread.{IsSync};
ghost use denote.Param.Send.{IsSend};
ghost use Rattle.chain_live_threads.specs.AtOnce.{AcceptsRow, LeavesRow, AcceptsThree, LeavesThree};

use std::marker::{Send, Sync};
use std::thread::{Threads, join_mut};

/// Calls `f` with a row.
fn at_row<X, F: Fn(&mut [X])>(f: &F, xs: &mut [X])
    requires { AcceptsRow F.Fn f.now xs.old }
    ensures { LeavesRow F.Fn f.now xs.old xs.new }
{
    f(xs);
}

/// Calls `f` with a row and two values.
fn at_three<X, Y, Z, F: Fn(&mut [X], &mut Y, &mut Z)>(f: &F, xs: &mut [X], y: &mut Y, z: &mut Z)
    requires { AcceptsThree F.Fn f.now xs.old y.old z.old }
    ensures { LeavesThree F.Fn f.now xs.old y.old z.old xs.new y.new z.new }
{
    f(xs, y, z);
}

/// Calls `f(xs)` in a thread of its own and `g(rest, y, z)` in the caller's. Where no thread can be started, the caller makes both
/// calls, that of `f` last.
pub(crate) fn on_both<
    R: Threads + Sync,
    X: Send,
    Y,
    Z,
    F: Fn(&mut [X]) + Sync,
    G: Fn(&mut [X], &mut Y, &mut Z),
>(rt: &R, f: &F, g: &G, xs: &mut [X], rest: &mut [X], y: &mut Y, z: &mut Z)
    requires front { AcceptsRow F.Fn f.now xs.old }
    requires back { AcceptsThree G.Fn g.now rest.old y.old z.old }
    ensures front { LeavesRow F.Fn f.now xs.old xs.new }
    ensures back { LeavesThree G.Fn g.now rest.old y.old z.old rest.new y.new z.new }
{
    let mut front = ||
        requires { IsSync F.row × IsSend X.row × AcceptsRow F.Fn f.now xs.now }
        ensures { LeavesRow F.Fn f.entry.now xs.entry.now xs.exit.now }
    { at_row(f, xs) };
    let mut back = ||
        requires { AcceptsThree G.Fn g.now rest.now y.now z.now }
        ensures { LeavesThree G.Fn g.entry.now rest.entry.now y.entry.now z.entry.now rest.exit.now y.exit.now z.exit.now }
    { at_three(g, rest, y, z) };
    join_mut(rt, &mut front, &mut back);
}
