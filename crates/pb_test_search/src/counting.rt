//! A counter with a history, on which one thread counts, and four.
ghost use Rattle.std.specs.Prelude.{◌≡◌, ◌+◌, ◌<◌, ◌≤◌, ◌++◌, [], ◌∷◌, vec_len, MatchBool};
ghost use Rattle.pb_turn.specs.Passes.{view, parts, whole, found, state, IsResting, HoldsTurn, IsPassOf, IsSamePass};
ghost use Rattle.pb_test_search.specs.Counting.{up_to, counted};

use pb_turn::{Held, Leaving, Pass, TurnLock, TurnRule};
use std::alloc::Global;
use std::process::Abort;
use std::sync::Wait;
use std::sync::atomic::{AtomicBool, Ordering};
use std::test::Fail;
use std::thread::{Threads, join, yield_now};

const TIMES: u64 = 100;

// How often a holder gives its processor away. A pass that waits for it is asleep by then.
const YIELDS: u32 = 100_000;

/// A counter with each number that it came to. It can't be dropped.
struct Counter {
    count: u64,
    history: Vec<u64>,
    ghost told: { vec_len history ≡ count },
}

impl Counter {
    fn new(alloc: Global) -> Counter
        ensures { (result.count ≡ 0) × (result.history.items ≡ []) }
    {
        Counter {
            count: 0,
            history: Vec::new(alloc),
        }
    }

    // Counts once if there is memory for the history, and says whether it did.
    fn count_once(&mut self) -> bool
        ensures count { self.new.count ≡ counted result self.old.count }
        ensures history { MatchBool result (self.new.history.items
            ≡ self.old.history.items ++ self.new.count ∷ [])
            (self.new.history.items ≡ self.old.history.items) }
    {
        let next = self.history.len() as u64 + 1;
        if self.history.push(next).is_err() {
            return false;
        }
        self.count = next;
        true
    }

    fn destroy(self) -> Vec<u64>
        ensures { result ≡ self.history }
    {
        let Counter { count: _, history } = self;
        history
    }
}

/// Ties the counter to the passes: each has counted as often as its view says.
struct CounterRule;

impl TurnRule for CounterRule {
    ghost use Rattle.std.specs.Prelude.{◌+◌};
    ghost use Rattle.pb_test_search.specs.Counting.{Counts};

    type State = Counter;

    type View = u64;

    ghost fact = { λ c number views. Counts c.count c.history.items views };

    ghost first = { λ _. 0 };

    ghost kept = { λ v. v };

    ghost given = { λ _. 0 };

    ghost met = { λ v w. v + w };

    ghost spent = { 0 };

    ghost loaded = { λ _ v number. v };

    ghost lowered = { λ v number. v };
}

/// Leaving: the holder says whether it counted.
struct AfterCount;

impl Leaving<CounterRule> for AfterCount {
    ghost use Rattle.pb_test_search.specs.Counting.{counted};

    type Said = bool;

    ghost after = { λ did _ _ v. counted did v };
}

// What a holder does: it counts once, leaves, and says whether it counted.
fn count_and_leave(
    lock: &TurnLock<CounterRule>,
    pass: &mut Pass<CounterRule>,
    mut held: Held<CounterRule>,
) -> bool
    requires own { IsPassOf lock.now pass.old }
    requires holds { HoldsTurn pass.old (found held) × (state held ≡ found held) }
    ensures same { IsSamePass pass.old pass.new × IsResting pass.new }
    ensures view { view pass.new ≡ counted result (view pass.old) }
{
    let did = held.state_mut().count_once();
    lock.leave::<AfterCount>(pass, held, &did);
    did
}

// Counts some times, waiting for the turn each time, and says how often it did.
fn count_times<W: Wait>(
    rt: &W,
    lock: &TurnLock<CounterRule>,
    mut pass: Pass<CounterRule>,
) -> (Pass<CounterRule>, u64)
    requires { IsPassOf lock.now pass × IsResting pass }
    ensures pass { IsPassOf lock.now result.0 × IsResting result.0 × (parts result.0 ≡ parts pass) }
    ensures counted { (view result.0 ≡ view pass + result.1) × (result.1 ≤ 100) }
{
    let mut counts = 0;
    for _ in 0..TIMES {
        let held = lock.enter(rt, &mut pass);
        if count_and_leave(lock, &mut pass, held) {
            counts += 1;
        }
    }
    (pass, counts)
}

// Two workers in two threads. The first one's pass takes in the second one's.
fn count_by_two<R: Threads + Wait + Sync>(
    rt: &R,
    lock: &TurnLock<CounterRule>,
    first: Pass<CounterRule>,
    second: Pass<CounterRule>,
) -> (Pass<CounterRule>, u64)
    requires { IsPassOf lock.now first × IsResting first × IsPassOf lock.now second
        × IsResting second }
    ensures pass { IsPassOf lock.now result.0 × IsResting result.0
        × (parts result.0 ≡ parts first + parts second) }
    ensures counted { (view result.0 ≡ view first + view second + result.1) × (result.1 ≤ 200) }
{
    let ((mut first, one), (second, other)) = join(
        rt,
        || -> (Pass<CounterRule>, u64)
            requires { IsPassOf lock.now first × IsResting first }
            ensures { IsPassOf lock.entry.now result.0 × IsResting result.0
                × (parts result.0 ≡ parts first) × (view result.0 ≡ view first + result.1)
                × (result.1 ≤ 100) }
        { count_times(rt, lock, first) },
        || -> (Pass<CounterRule>, u64)
            requires { IsPassOf lock.now second × IsResting second }
            ensures { IsPassOf lock.entry.now result.0 × IsResting result.0
                × (parts result.0 ≡ parts second) × (view result.0 ≡ view second + result.1)
                × (result.1 ≤ 100) }
        { count_times(rt, lock, second) },
    );
    lock.meet(&mut first, second);
    (first, one + other)
}

// The counter at the end: all that the passes counted, in its history.
fn close(lock: TurnLock<CounterRule>, pass: Pass<CounterRule>) -> Counter
    requires { IsPassOf lock pass × IsResting pass × (parts pass ≡ whole) }
    ensures count { result.count ≡ view pass }
    ensures history { result.history.items ≡ up_to (view pass) }
{
    let (counter, _) = lock.close_with(pass);
    counter
}

// Four workers in four threads: the counter, and how often they counted.
fn count_by_four<R: Threads + Wait + Sync>(
    rt: &R,
    lock: TurnLock<CounterRule>,
    mut first: Pass<CounterRule>,
) -> (Counter, u64)
    requires { IsPassOf lock first × IsResting first × (parts first ≡ whole) × (view first ≡ 0) }
    ensures count { result.0.count ≡ result.1 }
    ensures history { result.0.history.items ≡ up_to result.1 }
{
    let second = lock.split(&mut first);
    let third = lock.split(&mut first);
    let fourth = lock.split(&mut first);
    let shared = &lock;
    let ((mut first, two), (third, others)) = join(
        rt,
        || -> (Pass<CounterRule>, u64)
            requires { IsPassOf shared.now first × IsResting first × IsPassOf shared.now second
                × IsResting second }
            ensures { IsPassOf shared.entry.now result.0 × IsResting result.0
                × (parts result.0 ≡ parts first + parts second)
                × (view result.0 ≡ view first + view second + result.1) × (result.1 ≤ 200) }
        { count_by_two(rt, shared, first, second) },
        || -> (Pass<CounterRule>, u64)
            requires { IsPassOf shared.now third × IsResting third × IsPassOf shared.now fourth
                × IsResting fourth }
            ensures { IsPassOf shared.entry.now result.0 × IsResting result.0
                × (parts result.0 ≡ parts third + parts fourth)
                × (view result.0 ≡ view third + view fourth + result.1) × (result.1 ≤ 200) }
        { count_by_two(rt, shared, third, fourth) },
    );
    lock.meet(&mut first, third);
    (close(lock, first), two + others)
}

// One worker, by tries alone: the only pass always gets the turn.
fn count_alone(lock: TurnLock<CounterRule>, mut pass: Pass<CounterRule>) -> (Counter, u64)
    requires { IsPassOf lock pass × IsResting pass × (parts pass ≡ whole) × (view pass ≡ 0) }
    ensures count { result.0.count ≡ result.1 }
    ensures history { result.0.history.items ≡ up_to result.1 }
{
    let mut counts = 0;
    for _ in 0..TIMES {
        let entered = lock.try_enter(&mut pass);
        let Some(held) = entered else { unreachable!() };
        if count_and_leave(&lock, &mut pass, held) {
            counts += 1;
        }
    }
    (close(lock, pass), counts)
}

// Tries once, counts if it got the turn, and says whether it did.
fn try_to_count(lock: &TurnLock<CounterRule>, pass: &mut Pass<CounterRule>) -> bool
    requires { IsPassOf lock.now pass.old × IsResting pass.old }
    ensures { IsSamePass pass.old pass.new × IsResting pass.new }
{
    match lock.try_enter(pass) {
        Some(held) => {
            count_and_leave(lock, pass, held);
            true
        }
        None => false,
    }
}

// Two passes in one thread: the second tries while the first holds the turn, and again after it
// left.
fn try_beside_a_holder<W: Wait>(
    rt: &W,
    lock: TurnLock<CounterRule>,
    mut first: Pass<CounterRule>,
) -> (bool, bool, Counter)
    requires { IsPassOf lock first × IsResting first × (parts first ≡ whole) }
{
    let mut second = lock.split(&mut first);
    let held = lock.enter(rt, &mut first);
    let during = try_to_count(&lock, &mut second);
    count_and_leave(&lock, &mut first, held);
    let after = try_to_count(&lock, &mut second);
    lock.meet(&mut first, second);
    (during, after, close(lock, first))
}

// Counts once, and holds the turn until another pass, which sees that it is held, sleeps for it.
fn count_slowly<W: Wait>(
    rt: &W,
    lock: &TurnLock<CounterRule>,
    mut pass: Pass<CounterRule>,
    holds: &AtomicBool,
) -> Pass<CounterRule>
    requires { IsPassOf lock.now pass × IsResting pass }
    ensures { IsPassOf lock.now result × IsResting result × (parts result ≡ parts pass) }
{
    let held = lock.enter(rt, &mut pass);
    holds.store(true, Ordering::SeqCst);
    for _ in 0..YIELDS {
        yield_now();
    }
    count_and_leave(lock, &mut pass, held);
    pass
}

// Counts as soon as another pass holds the turn.
fn count_behind<W: Wait>(
    rt: &W,
    lock: &TurnLock<CounterRule>,
    pass: Pass<CounterRule>,
    holds: &AtomicBool,
) -> Pass<CounterRule>
    requires { IsPassOf lock.now pass × IsResting pass }
    ensures { IsPassOf lock.now result × IsResting result × (parts result ≡ parts pass) }
{
    for _ in 0..10_000_000 {
        if holds.load(Ordering::SeqCst) {
            break;
        }
        yield_now();
    }
    let (pass, _) = count_times(rt, lock, pass);
    pass
}

// One thread holds the turn until another one sleeps for it. Then that one counts.
fn wake_a_sleeper<R: Threads + Wait + Sync>(
    rt: &R,
    lock: TurnLock<CounterRule>,
    mut first: Pass<CounterRule>,
) -> Counter
    requires { IsPassOf lock first × IsResting first × (parts first ≡ whole) }
{
    let second = lock.split(&mut first);
    let (shared, holds) = (&lock, &AtomicBool::new(false));
    let (mut first, second) = join(
        rt,
        || -> Pass<CounterRule>
            requires { IsPassOf shared.now first × IsResting first }
            ensures { IsPassOf shared.entry.now result × IsResting result
                × (parts result ≡ parts first) }
        { count_slowly(rt, shared, first, holds) },
        || -> Pass<CounterRule>
            requires { IsPassOf shared.now second × IsResting second }
            ensures { IsPassOf shared.entry.now result × IsResting result
                × (parts result ≡ parts second) }
        { count_behind(rt, shared, second, holds) },
    );
    lock.meet(&mut first, second);
    close(lock, first)
}

// A lock over a new counter, and its first pass. The number is what the turn's word is while the turn
// is held: a pass that slept on the number instead would sleep on.
fn open<R: Abort>(rt: &R, alloc: Global) -> (TurnLock<CounterRule>, Pass<CounterRule>)
    ensures { IsPassOf result.0 result.1 × IsResting result.1 × (parts result.1 ≡ whole)
        × (view result.1 ≡ 0) }
{
    match TurnLock::new(alloc, Counter::new(alloc), 1) {
        Ok(made) => made,
        Err((_, counter)) => {
            drop(counter.destroy());
            panic!(rt; "no memory")
        }
    }
}

#[test]
fn one_thread_counts_each_number_once(rt: HostRuntime) -> Result<(), Fail> {
    let (lock, pass) = open(&rt, rt.alloc());
    let (counter, counts) = count_alone(lock, pass);
    assert_eq!(rt; counts, TIMES);
    let history = counter.destroy();
    assert_eq!(rt; history.len(), 100);
    assert_eq!(rt; history[99], 100);
    Ok(())
}

#[test]
fn four_threads_count_each_number_once(rt: HostRuntime) -> Result<(), Fail> {
    let (lock, first) = open(&rt, rt.alloc());
    let (counter, counts) = count_by_four(&rt, lock, first);
    assert_eq!(rt; counts, 4 * TIMES);
    let history = counter.destroy();
    assert_eq!(rt; history.len(), 400);
    assert_eq!(rt; history[0], 1);
    assert_eq!(rt; history[399], 400);
    Ok(())
}

// A pass that nobody wakes would sleep for ever, and the test would never end.
#[test]
fn a_sleeper_is_woken(rt: HostRuntime) -> Result<(), Fail> {
    let (lock, first) = open(&rt, rt.alloc());
    let counter = wake_a_sleeper(&rt, lock, first);
    let history = counter.destroy();
    assert_eq!(rt; history.len(), 101);
    Ok(())
}

#[test]
fn a_try_beside_a_holder_is_none(rt: HostRuntime) -> Result<(), Fail> {
    let (lock, first) = open(&rt, rt.alloc());
    let (during, after, counter) = try_beside_a_holder(&rt, lock, first);
    assert_eq!(rt; (during, after), (false, true));
    let history = counter.destroy();
    assert_eq!(rt; history.len(), 2);
    Ok(())
}
