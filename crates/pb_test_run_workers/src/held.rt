//! Whole runs by several workers that a gate holds.
use crate::corridor::corridor_words;
use pb_outside::Gate;
use std::sync::atomic::{AtomicBool, AtomicU64, Ordering};
use std::test::Fail;
use std::thread::yield_now;

// A gate that holds the first lease of block 20 or 24 before it goes on or comes back, until the
// other block's lease is to do so too.
#[derive(Drop)]
struct MeetingGate {
    first: AtomicU64,
    both: AtomicBool,
}

impl Gate for MeetingGate {
    fn leased(&self, _worker: u32, _block: u32) {}

    fn giving(&self, _worker: u32, block: u32) {
        if block != 20 && block != 24 {
            return;
        }
        let block = u64::from(block);
        let found = self
            .first
            .compare_exchange(0, block, Ordering::SeqCst, Ordering::SeqCst);
        if let Err(other) = found {
            if other != block {
                self.both.store(true, Ordering::SeqCst);
            }
            return;
        }
        // Not for ever: a search that never gets there is to fail the test, and not to hang.
        for _ in 0..10_000_000 {
            if self.both.load(Ordering::SeqCst) {
                return;
            }
            yield_now();
        }
    }
}

#[test]
fn two_leases_meet_as_they_come_back(rt: HostRuntime) -> Result<(), Fail> {
    let gate = MeetingGate {
        first: AtomicU64::new(0),
        both: AtomicBool::new(false),
    };
    let line = "solve grid map scenario --workers 2 --cert c --trace j";
    let (status, said, closed) = corridor_words(&rt, rt.alloc(), line, &gate)?;
    assert_eq!(rt; status, 1);
    assert!(rt; said.bytes().starts_with(b"none\naccepted none\njournal "));
    assert_eq!(rt; closed, 9);
    assert!(rt; gate.both.load(Ordering::SeqCst));
    Ok(())
}

// A gate that holds the first lease of each worker until another one was given back, or for 100,000
// turns.
#[derive(Drop)]
struct SlowGate {
    held: AtomicU64,
    given: AtomicU64,
}

impl Gate for SlowGate {
    fn leased(&self, worker: u32, _block: u32) {
        let own = 1u64 << (worker % 64);
        if self.held.fetch_or(own, Ordering::SeqCst) & own != 0 {
            return;
        }
        let before = self.given.load(Ordering::SeqCst);
        for _ in 0..100_000 {
            if self.given.load(Ordering::SeqCst) != before {
                return;
            }
            yield_now();
        }
    }

    fn giving(&self, _worker: u32, _block: u32) {
        self.given.fetch_add(1, Ordering::SeqCst);
    }
}

#[test]
fn workers_that_are_held_find_the_same(rt: HostRuntime) -> Result<(), Fail> {
    let gate = SlowGate {
        held: AtomicU64::new(0),
        given: AtomicU64::new(0),
    };
    let line = "solve grid map scenario --workers 4 --cert c --trace j";
    let (status, said, closed) = corridor_words(&rt, rt.alloc(), line, &gate)?;
    assert_eq!(rt; status, 1);
    assert!(rt; said.bytes().starts_with(b"none\naccepted none\njournal "));
    assert_eq!(rt; closed, 9);
    Ok(())
}
