//! Whole runs whose gate sees which blocks are leased, or holds a lease.
use crate::corridor::corridor_words;
use pb_outside::{Gate, MemSink};
use pb_test_run::{OPEN_MAP, SCENARIO, gated_outcome, grid_shelf};
use std::sync::atomic::{AtomicBool, AtomicU64, Ordering};
use std::test::Fail;
use std::thread::yield_now;

// Which blocks were leased, as the digits after a first 1, and how often a lease was to go on or to
// come back.
#[derive(Drop)]
struct CountingGate {
    leased: AtomicU64,
    giving: AtomicU64,
}

impl Gate for CountingGate {
    fn leased(&self, _worker: u32, block: u32) {
        let before = self.leased.load(Ordering::SeqCst);
        // Seven leases are noted, so no digit is lost.
        let after = before.wrapping_mul(10).wrapping_add(u64::from(block));
        self.leased.store(after, Ordering::SeqCst);
    }

    fn giving(&self, _worker: u32, _block: u32) {
        self.giving.fetch_add(1, Ordering::SeqCst);
    }
}

// The map has nine blocks of one cell each. The way leads along the upper and the right side, and
// then the rows of the two other blocks are cut.
#[test]
fn the_gate_is_told_of_each_lease(rt: HostRuntime) -> Result<(), Fail> {
    let gate = CountingGate {
        leased: AtomicU64::new(1),
        giving: AtomicU64::new(0),
    };
    let line = "solve grid map scenario";
    let mut files = grid_shelf(rt.alloc(), OPEN_MAP, SCENARIO)?;
    let mut sink = MemSink::new(rt.alloc(), 4096)?;
    let status = gated_outcome(&rt, rt.alloc(), line, &mut files, &mut sink, &gate)?;
    assert_eq!(rt; status, 0);
    assert_eq!(rt; gate.leased.load(Ordering::SeqCst), 10_125_843);
    assert_eq!(rt; gate.giving.load(Ordering::SeqCst), 7);
    Ok(())
}

// A gate that keeps the first lease of block 20 or 24 until the other one is leased too.
#[derive(Drop)]
struct HoldingGate {
    first: AtomicU64,
    both: AtomicBool,
}

impl Gate for HoldingGate {
    fn leased(&self, _worker: u32, block: u32) {
        if block != 20 && block != 24 {
            return;
        }
        let block = u64::from(block);
        let found = self
            .first
            .compare_exchange(0, block, Ordering::SeqCst, Ordering::SeqCst);
        if let Err(other) = found {
            if other != block {
                self.both.store(true, Ordering::SeqCst);
            }
            return;
        }
        // Not for ever: a search that never gets there is to fail the test, and not to hang.
        for _ in 0..10_000_000 {
            if self.both.load(Ordering::SeqCst) {
                return;
            }
            yield_now();
        }
    }

    fn giving(&self, _worker: u32, _block: u32) {}
}

// The scopes of the corridor's two ends have no block in common.
#[test]
fn two_blocks_are_leased_at_once(rt: HostRuntime) -> Result<(), Fail> {
    let gate = HoldingGate {
        first: AtomicU64::new(0),
        both: AtomicBool::new(false),
    };
    let line = "solve grid map scenario --workers 2 --cert c --trace j";
    let (status, said, closed) = corridor_words(&rt, rt.alloc(), line, &gate)?;
    assert_eq!(rt; status, 1);
    assert!(rt; said.bytes().starts_with(b"none\naccepted none\njournal "));
    assert_eq!(rt; closed, 9);
    assert!(rt; gate.both.load(Ordering::SeqCst));
    Ok(())
}
