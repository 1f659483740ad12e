//! That two owners work at once, and that an idle one passes its gate all the same.
use crate::samples::{far_board, search_task, settings_of};
use pb_machine::End;
use pb_outside::Gate;
use pb_test_examples::open_square;
use std::sync::atomic::{AtomicU64, Ordering};
use std::test::Fail;
use std::thread::yield_now;

// Holds each of owners 0 and 1 before its work until the other is held too, for at most so many
// turns. Once both were held at once, nobody is held again.
#[derive(Drop)]
struct PairGate {
    first: AtomicU64,
    second: AtomicU64,
    both: AtomicU64,
    turns: u64,
}

impl PairGate {
    // Whether this owner is held, and whether the other is.
    fn flags(&self, owner: u32) -> (&AtomicU64, &AtomicU64) {
        if owner == 0 {
            (&self.first, &self.second)
        } else {
            (&self.second, &self.first)
        }
    }
}

impl Gate for PairGate {
    fn leased(&self, owner: u32, _block: u32) {
        let (own, other) = self.flags(owner);
        own.store(1, Ordering::SeqCst);
        for _ in 0..self.turns {
            if other.load(Ordering::SeqCst) == 1 {
                self.both.store(1, Ordering::SeqCst);
            }
            if self.both.load(Ordering::SeqCst) == 1 {
                return;
            }
            yield_now();
        }
        own.store(0, Ordering::SeqCst);
    }

    fn giving(&self, _owner: u32, _block: u32) {}
}

// Two owners with rows are at work at once: neither waits for the other to be done. In a round in
// which one of them is idle, neither is held for long.
#[test]
fn two_owners_work_at_once(rt: HostRuntime) -> Result<(), Fail> {
    let gate = PairGate {
        first: AtomicU64::new(0),
        second: AtomicU64::new(0),
        both: AtomicU64::new(0),
        turns: 20_000,
    };
    let task = far_board(rt.alloc())?;
    let seen = search_task(&rt, rt.alloc(), task, settings_of(2, 1 << 20, 8), &gate)?;
    assert_eq!(rt; gate.both.load(Ordering::SeqCst), 1);
    assert_eq!(rt; (seen.end, seen.incumbent), (End::Quiet, Some(20)));
    Ok(())
}

// Holds owner 0 before its first work until owner 1 passes its own gate, for at most 10,000,000
// turns.
#[derive(Drop)]
struct FirstGate {
    held: AtomicU64,
    passed: AtomicU64,
    seen: AtomicU64,
}

impl Gate for FirstGate {
    fn leased(&self, owner: u32, _block: u32) {
        if owner == 1 {
            self.passed.store(1, Ordering::SeqCst);
        }
        if owner > 0 || self.held.load(Ordering::SeqCst) == 1 {
            return;
        }
        self.held.store(1, Ordering::SeqCst);
        for _ in 0..10_000_000 {
            if self.passed.load(Ordering::SeqCst) == 1 {
                self.seen.store(1, Ordering::SeqCst);
                return;
            }
            yield_now();
        }
    }

    fn giving(&self, _owner: u32, _block: u32) {}
}

// In the first round only the owner of the start has a row. It is held, and the idle owner's gate
// is called meanwhile or before.
#[test]
fn idle_owner_passes_its_gate(rt: HostRuntime) -> Result<(), Fail> {
    let gate = FirstGate {
        held: AtomicU64::new(0),
        passed: AtomicU64::new(0),
        seen: AtomicU64::new(0),
    };
    let task = open_square(rt.alloc())?;
    let seen = search_task(&rt, rt.alloc(), task, settings_of(2, 1000, 256), &gate)?;
    assert_eq!(rt; gate.seen.load(Ordering::SeqCst), 1);
    assert_eq!(rt; (seen.end, seen.incumbent), (End::Quiet, Some(4)));
    Ok(())
}
