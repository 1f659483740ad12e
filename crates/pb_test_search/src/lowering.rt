//! A number that only falls, beside a state that nobody needs. One thread and two lower the number
//! and read it.
ghost use Rattle.std.specs.Prelude.{◌≡◌, ◌+◌, ◌≤◌, ℕ, Some};
ghost use Rattle.pb_turn.specs.Passes.{view, parts, whole, IsResting, IsPassOf, IsSamePlace};
ghost use Rattle.pb_test_search.specs.Lowering.{brought};

use pb_turn::{Leaving, Pass, TurnLock, TurnRule};
use std::alloc::Global;
use std::process::Abort;
use std::sync::Wait;
use std::test::Fail;
use std::thread::{Threads, join};

const TIMES: u64 = 100;

/// Ties the number to the passes: it is at most what each has read or brought last. The state is
/// the number at first.
struct LeastRule;

impl TurnRule for LeastRule {
    ghost use Rattle.std.specs.Prelude.{Some, None};
    ghost use Rattle.pb_test_search.specs.Lowering.{IsAtMost, brought};

    type State = u64;

    type View = Option<u64>;

    ghost fact = { λ first number views. IsAtMost number views };

    ghost first = { λ first. Some first };

    ghost kept = { λ v. v };

    ghost given = { λ v. v };

    ghost met = { λ v w. v };

    ghost spent = { None };

    ghost loaded = { λ _ v number. Some number };

    ghost lowered = { brought };
}

/// Leaving as it was.
struct AsBefore;

impl Leaving<LeastRule> for AsBefore {
    type Said = ();

    ghost after = { λ _ _ _ v. v };
}

// A lock with this number, and its first pass.
fn open<R: Abort>(rt: &R, alloc: Global, number: u64) -> (TurnLock<LeastRule>, Pass<LeastRule>)
    ensures { IsPassOf result.0 result.1 × IsResting result.1 × (parts result.1 ≡ whole)
        × (view result.1 ≡ Some number) }
{
    match TurnLock::new(alloc, number, number) {
        Ok(made) => made,
        Err(_) => panic!(rt; "no memory"),
    }
}

// Reads the number. It is at most what the pass read or brought last, if anything.
fn read(lock: &TurnLock<LeastRule>, pass: &mut Pass<LeastRule>) -> u64
    requires { IsPassOf lock.now pass.old }
    ensures same { IsSamePlace pass.old pass.new × (parts pass.new ≡ parts pass.old) }
    ensures view { view pass.new ≡ Some result }
    ensures falls { (last : ℕ) → view pass.old ≡ Some last → result ≤ last }
{
    lock.word(pass)
}

// Brings a number.
fn bring(lock: &TurnLock<LeastRule>, pass: &mut Pass<LeastRule>, number: u64)
    requires { IsPassOf lock.now pass.old }
    ensures same { IsSamePlace pass.old pass.new × (parts pass.new ≡ parts pass.old) }
    ensures view { view pass.new ≡ brought (view pass.old) number }
{
    lock.lower_word(pass, number);
}

// Brings numbers that fall by one from this one, and reads after each.
fn bring_times(lock: &TurnLock<LeastRule>, mut pass: Pass<LeastRule>, first: u64) -> Pass<LeastRule>
    requires { IsPassOf lock.now pass × IsResting pass }
    ensures { IsPassOf lock.now result × IsResting result × (parts result ≡ parts pass) }
{
    for round in 0..TIMES {
        bring(lock, &mut pass, first.saturating_sub(round));
        read(lock, &mut pass);
    }
    pass
}

// Two threads bring numbers, from 1000 and from 450 down. The last number of the lock.
fn bring_by_two<R: Threads + Sync>(
    rt: &R,
    lock: TurnLock<LeastRule>,
    mut first: Pass<LeastRule>,
) -> u64
    requires { IsPassOf lock first × IsResting first × (parts first ≡ whole) }
{
    let second = lock.split(&mut first);
    let shared = &lock;
    let (mut pass, other) = join(
        rt,
        || -> Pass<LeastRule>
            requires { IsPassOf shared.now first × IsResting first }
            ensures { IsPassOf shared.entry.now result × IsResting result
                × (parts result ≡ parts first) }
        { bring_times(shared, first, 1000) },
        || -> Pass<LeastRule>
            requires { IsPassOf shared.now second × IsResting second }
            ensures { IsPassOf shared.entry.now result × IsResting result
                × (parts result ≡ parts second) }
        { bring_times(shared, second, 450) },
    );
    lock.meet(&mut pass, other);
    let (_, last) = lock.close_with(pass);
    last
}

// Two passes in one thread: what each reads, the second while the first holds the turn too, and the
// last number.
fn read_beside_a_holder<W: Wait>(
    rt: &W,
    lock: TurnLock<LeastRule>,
    mut first: Pass<LeastRule>,
) -> [u64; 6]
    requires { IsPassOf lock first × IsResting first × (parts first ≡ whole) }
{
    let begun = read(&lock, &mut first);
    bring(&lock, &mut first, 5);
    bring(&lock, &mut first, 7);
    let mut second = lock.split(&mut first);
    let shown = read(&lock, &mut second);
    let held = lock.enter(rt, &mut first);
    bring(&lock, &mut second, 3);
    let beside = read(&lock, &mut second);
    let within = read(&lock, &mut first);
    bring(&lock, &mut first, 2);
    lock.leave::<AsBefore>(&mut first, held, &());
    let after = read(&lock, &mut second);
    lock.meet(&mut first, second);
    let (_, last) = lock.close_with(first);
    [begun, shown, beside, within, after, last]
}

#[test]
fn a_number_is_read_as_it_was_lowered_last(rt: HostRuntime) -> Result<(), Fail> {
    let (lock, pass) = open(&rt, rt.alloc(), 9);
    assert_eq!(rt; read_beside_a_holder(&rt, lock, pass), [9, 5, 3, 3, 2, 2]);
    Ok(())
}

#[test]
fn two_threads_leave_the_least_number(rt: HostRuntime) -> Result<(), Fail> {
    let (lock, pass) = open(&rt, rt.alloc(), u64::MAX);
    assert_eq!(rt; bring_by_two(&rt, lock, pass), 351);
    Ok(())
}

#[test]
fn a_number_that_nobody_lowers_stays(rt: HostRuntime) -> Result<(), Fail> {
    let (lock, pass) = open(&rt, rt.alloc(), u64::MAX);
    let (state, last) = lock.close_with(pass);
    assert_eq!(rt; (state, last), (u64::MAX, u64::MAX));
    Ok(())
}
