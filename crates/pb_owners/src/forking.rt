//! A call for each owner: at once for those that have much to do, and in turn for the others.
ghost use Rattle.std.specs.Prelude.{◌+◌, ◌<◌, ◌≤◌, length};
ghost use Rattle.std.specs.Fork.{AcceptsAt, ChangesAt, AcceptsEach, ChangesEach};
ghost use Rattle.std.specs.Thread.{IsSync, IsSend};
ghost use Rattle.pb_owners.specs.Halves.{EachFrom, ChangesFrom};

use std::thread::{Threads, join_mut};

/// Which owners have so much to do in one half of a round that it is worth a thread. It is a hint
/// alone: in which thread a call runs makes no difference to what it does.
pub type Busy = [bool; 64];

// Whether one of the owners from this number on, up to that one, is busy.
fn any_busy(busy: &Busy, from: usize, to: usize) -> bool
    requires { to ≤ 64 }
{
    for at in from..to {
        if busy[at] {
            return true;
        }
    }
    false
}

fn call<T, F: Fn(usize, &mut T)>(f: &F, at: usize, item: &mut T)
    requires { AcceptsAt F.Fn f.now at item.old }
    ensures { ChangesAt F.Fn f.now at item.old item.new }
{
    f(at, item);
}

// The calls for some owners, of which the first has this number. The list is halved at each step.
#[cycle(halves)]
fn calls_from<R: Threads + Sync, T: Send, F: Fn(usize, &mut T) + Sync>(
    rt: &R,
    f: &F,
    busy: &Busy,
    from: usize,
    items: &mut [T],
)
    requires some { 0 < length items.old }
    requires few { from + length items.old ≤ 64 }
    requires accepts { EachFrom (AcceptsAt F.Fn f.now) from items.old }
    ensures { ChangesFrom (ChangesAt F.Fn f.now) from items.old items.new }
{
    if items.len() == 1 {
        call(f, from, &mut items[0]);
        return;
    }
    let half = items.len() / 2;
    let (low, high) = items.split_at_mut(half);
    both_halves(rt, f, busy, from, low, from + half, high);
}

// Both halves: at once if both have a busy owner, and else the idle half first.
#[cycle(halves)]
fn both_halves<R: Threads + Sync, T: Send, F: Fn(usize, &mut T) + Sync>(
    rt: &R,
    f: &F,
    busy: &Busy,
    from: usize,
    low: &mut [T],
    middle: usize,
    high: &mut [T],
)
    requires some { (0 < length low.old) × (0 < length high.old) }
    requires few { (from + length low.old ≤ 64) × (middle + length high.old ≤ 64) }
    requires low { EachFrom (AcceptsAt F.Fn f.now) from low.old }
    requires high { EachFrom (AcceptsAt F.Fn f.now) middle high.old }
    ensures low { ChangesFrom (ChangesAt F.Fn f.now) from low.old low.new }
    ensures high { ChangesFrom (ChangesAt F.Fn f.now) middle high.old high.new }
{
    let low_works = any_busy(busy, from, from + low.len());
    let high_works = any_busy(busy, middle, middle + high.len());
    // The half without work runs on this thread, before the half that may start others.
    if !low_works {
        calls_from(rt, f, busy, from, low);
        calls_from(rt, f, busy, middle, high);
        return;
    }
    if !high_works {
        calls_from(rt, f, busy, middle, high);
        calls_from(rt, f, busy, from, low);
        return;
    }
    let mut front = ||
        requires { IsSync R.row × IsSync F.row × IsSend T.row × (0 < length low.now)
            × (from + length low.now ≤ 64) × EachFrom (AcceptsAt F.Fn f.now) from low.now }
        ensures { ChangesFrom (ChangesAt F.Fn f.entry.now) from low.entry.now low.exit.now }
    { calls_from(rt, f, busy, from, low) };
    let mut back = ||
        requires { IsSync R.row × IsSync F.row × IsSend T.row × (0 < length high.now)
            × (middle + length high.now ≤ 64)
            × EachFrom (AcceptsAt F.Fn f.now) middle high.now }
        ensures { ChangesFrom (ChangesAt F.Fn f.entry.now) middle high.entry.now high.exit.now }
    { calls_from(rt, f, busy, middle, high) };
    join_mut(rt, &mut front, &mut back);
}

/// Calls `f(i, &mut items[i])` for each owner. Only if two or more are busy new threads are
/// started: one fewer than there are busy owners. An owner that isn't busy comes first if it can.
pub fn for_each_owner<R: Threads + Sync, T: Send, F: Fn(usize, &mut T) + Sync>(
    rt: &R,
    f: &F,
    busy: &Busy,
    items: &mut [T],
)
    requires few { length items.old ≤ 64 }
    requires accepts { AcceptsEach F.Fn f.now items.old }
    ensures { ChangesEach F.Fn f.now items.old items.new }
{
    if items.is_empty() {
        return;
    }
    calls_from(rt, f, busy, 0, items);
}
