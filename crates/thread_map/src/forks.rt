//! A map over the places of a slice by threads that the caller's thread starts, one after the
//! other. If a list were halved again and again, as usual, a thread that has just begun would start
//! the next one and delay it.
ghost use Rattle.std.specs.Prelude.{◌<◌, length};
ghost use Rattle.std.specs.Thread.{IsSync, IsSend};
ghost use Rattle.std.specs.Fork.{AcceptsEach, ChangesEach};
ghost use Rattle.thread_map.specs.Forks.{AcceptsFrom, ChangesFrom};

use rayon::join_mut;
use std::marker::{Send, Sync};
use std::thread;
use std::thread::Threads;

/// Calls `f` at each place of `s`, with the place: the last on the caller's thread, each other in a thread of its own,
/// or on the caller's thread if no thread can be started.
pub fn fork_each<R: Threads + Sync, T: Send, F: Fn(usize, &mut T) + Sync>(
    rt: &R,
    s: &mut [T],
    f: &F,
)
    requires { AcceptsEach F.Fn f.now s.old }
    ensures { ChangesEach F.Fn f.now s.old s.new }
{
    fork_from(rt, f, 0, s);
}

/// Calls `f` at each place of `s`, with the place: by threads as `fork_each` if there is much to do, and otherwise on
/// the caller's thread.
pub fn fork_if_much<R: Threads + Sync, T: Send, F: Fn(usize, &mut T) + Sync>(
    rt: &R,
    much: bool,
    s: &mut [T],
    f: &F,
)
    requires { AcceptsEach F.Fn f.now s.old }
    ensures { ChangesEach F.Fn f.now s.old s.new }
{
    if much {
        fork_each(rt, s, f);
    } else {
        thread::for_each_mut(rt, s, 1, f);
    }
}

/// Calls `f` at the only place of a slice, or not at all if the slice is empty.
fn at_most_one<T, F: Fn(usize, &mut T)>(f: &F, base: usize, s: &mut [T])
    requires short { length s.old < 2 }
    requires accepts { AcceptsFrom F.Fn f.now base s.old }
    ensures { ChangesFrom F.Fn f.now base s.old s.new }
{
    if let Some(it) = s.first_mut() {
        f(base, it);
    }
}

/// Calls `f` at each place of a slice whose first place is `base` in the whole.
#[cycle(forks)]
fn fork_from<R: Threads + Sync, T: Send, F: Fn(usize, &mut T) + Sync>(
    rt: &R,
    f: &F,
    base: usize,
    s: &mut [T],
)
    requires { AcceptsFrom F.Fn f.now base s.old }
    ensures { ChangesFrom F.Fn f.now base s.old s.new }
{
    if s.len() < 2 {
        at_most_one(f, base, s);
        return;
    }
    let (first, rest) = s.split_at_mut(1);
    fork_both(rt, f, base, first, base + 1, rest);
}

/// Calls `f` at the place in `first` and at those in `rest`. It is a function of its own so that its clauses are what
/// the closures require.
#[cycle(forks)]
fn fork_both<R: Threads + Sync, T: Send, F: Fn(usize, &mut T) + Sync>(
    rt: &R,
    f: &F,
    base: usize,
    first: &mut [T],
    up: usize,
    rest: &mut [T],
)
    requires short { length first.old < 2 }
    requires front { AcceptsFrom F.Fn f.now base first.old }
    requires back { AcceptsFrom F.Fn f.now up rest.old }
    ensures front { ChangesFrom F.Fn f.now base first.old first.new }
    ensures back { ChangesFrom F.Fn f.now up rest.old rest.new }
{
    let mut front = ||
        requires { IsSync F.row × IsSend T.row × (length first.now < 2) × AcceptsFrom F.Fn f.now base first.now }
        ensures { ChangesFrom F.Fn f.entry.now base first.entry.now first.exit.now }
    { at_most_one(f, base, first) };
    let mut back = ||
        requires { IsSync R.row × IsSync F.row × IsSend T.row × AcceptsFrom F.Fn f.now up rest.now }
        ensures { ChangesFrom F.Fn f.entry.now up rest.entry.now rest.exit.now }
    { fork_from(rt, f, up, rest) };
    join_mut(rt, &mut front, &mut back);
}
