//! What a gate is told, and that leases are out and worked on at once: two, and one of each of four
//! workers.
use crate::samples::{ONE_WORKER, Sample, search_sample};
use pb_machine::{End, Settings};
use pb_outside::Gate;
use std::sync::atomic::{AtomicBool, AtomicU64, Ordering};
use std::test::Fail;
use std::thread::yield_now;

// How often each of a gate's calls came.
#[derive(Drop)]
struct CountingGate {
    leased: AtomicU64,
    giving: AtomicU64,
}

impl Gate for CountingGate {
    fn leased(&self, _worker: u32, _block: u32) {
        self.leased.fetch_add(1, Ordering::SeqCst);
    }

    fn giving(&self, _worker: u32, _block: u32) {
        self.giving.fetch_add(1, Ordering::SeqCst);
    }
}

// A gate is told of each lease of each worker, and before each renewal and release.
#[test]
fn the_gate_is_told(rt: HostRuntime) -> Result<(), Fail> {
    for (workers, budget, wish) in [(1, 500, 16), (4, 5000, 256)] {
        let gate = CountingGate {
            leased: AtomicU64::new(0),
            giving: AtomicU64::new(0),
        };
        let settings = Settings {
            workers,
            budget,
            lot: 1,
            wish,
            ..ONE_WORKER
        };
        let seen = search_sample(&rt, rt.alloc(), Sample::BoardWithoutPlan, settings, &gate)?;
        assert_eq!(rt;
            (
                gate.leased.load(Ordering::SeqCst),
                Some(gate.giving.load(Ordering::SeqCst))
            ),
            (seen.leases, seen.renewals.checked_add(seen.releases))
        );
        assert!(rt; workers > 1 || seen.renewals > 0);
        assert_eq!(rt; seen.incumbent, None);
    }
    Ok(())
}

// Holds the first lease of block 20 or 24 until the other of the two is leased too, for at most
// 10,000,000 turns.
#[derive(Drop)]
struct PairGate {
    left: AtomicU64,
    right: AtomicU64,
    both: AtomicU64,
}

impl PairGate {
    // Whether this block is leased, and whether the other of the two is.
    fn flags(&self, block: u32) -> Option<(&AtomicU64, &AtomicU64)> {
        match block {
            20 => Some((&self.left, &self.right)),
            24 => Some((&self.right, &self.left)),
            _ => None,
        }
    }
}

impl Gate for PairGate {
    fn leased(&self, _worker: u32, block: u32) {
        let Some((own, other)) = self.flags(block) else {
            return;
        };
        own.store(1, Ordering::SeqCst);
        for _ in 0..10_000_000 {
            if other.load(Ordering::SeqCst) == 1 {
                self.both.store(1, Ordering::SeqCst);
            }
            if self.both.load(Ordering::SeqCst) == 1 {
                return;
            }
            yield_now();
        }
    }

    fn giving(&self, _worker: u32, block: u32) {
        if let Some((own, _other)) = self.flags(block) {
            own.store(0, Ordering::SeqCst);
        }
    }
}

// Two leases with scopes that have no block in common are out at once: nobody takes turns for whole
// leases.
#[test]
fn two_leases_are_out_at_once(rt: HostRuntime) -> Result<(), Fail> {
    let gate = PairGate {
        left: AtomicU64::new(0),
        right: AtomicU64::new(0),
        both: AtomicU64::new(0),
    };
    let settings = Settings {
        workers: 2,
        ..ONE_WORKER
    };
    let seen = search_sample(&rt, rt.alloc(), Sample::Corridor, settings, &gate)?;
    assert_eq!(rt; gate.both.load(Ordering::SeqCst), 1);
    assert_eq!(rt;
        (seen.end, seen.incumbent, seen.expansions),
        (Some(End::Quiet), None, 9)
    );
    Ok(())
}

// Holds each lease after the first hundred until four workers have one each, for at most 10,000,000
// turns. If they never have, it holds no lease from then on.
#[derive(Drop)]
struct FullGate {
    leases: AtomicU64,
    // A bit for each worker that has a lease. A renewal takes it away too.
    workers: AtomicU64,
    all: AtomicU64,
    is_given_up: AtomicBool,
}

// The bit of a worker.
fn bit_of(worker: u32) -> u64 {
    1 << (worker % 64)
}

impl Gate for FullGate {
    fn leased(&self, worker: u32, _block: u32) {
        self.workers.fetch_or(bit_of(worker), Ordering::SeqCst);
        if self.leases.fetch_add(1, Ordering::SeqCst) < 100 {
            return;
        }
        for _ in 0..10_000_000 {
            if self.workers.load(Ordering::SeqCst) == 0b1111 {
                self.all.store(1, Ordering::SeqCst);
            }
            if self.all.load(Ordering::SeqCst) == 1 || self.is_given_up.load(Ordering::SeqCst) {
                return;
            }
            yield_now();
        }
        self.is_given_up.store(true, Ordering::SeqCst);
    }

    fn giving(&self, worker: u32, _block: u32) {
        self.workers.fetch_and(!bit_of(worker), Ordering::SeqCst);
    }
}

// Four workers have a lease each at once, so no two of them take turns.
#[test]
fn each_of_four_workers_has_a_lease_at_once(rt: HostRuntime) -> Result<(), Fail> {
    let gate = FullGate {
        leases: AtomicU64::new(0),
        workers: AtomicU64::new(0),
        all: AtomicU64::new(0),
        is_given_up: AtomicBool::new(false),
    };
    let settings = Settings {
        workers: 4,
        budget: 5000,
        lot: 1,
        wish: 256,
        ..ONE_WORKER
    };
    let seen = search_sample(&rt, rt.alloc(), Sample::BoardWithoutPlan, settings, &gate)?;
    assert_eq!(rt; gate.all.load(Ordering::SeqCst), 1);
    assert_eq!(rt; seen.incumbent, None);
    Ok(())
}

// The blocks of the hall's map with the long lease and with the short one.
const LONG: u32 = 4;

const SHORT: u32 = 1;

// What became of a lease.
const LEASED: u64 = 1;

const AT_WORK: u64 = 2;

const CAME_BACK: u64 = 3;

// Lets the work on the long lease begin first, once the short one is leased too, and that on the
// short one somewhat later. It waits for at most 10,000,000 turns.
#[derive(Drop)]
struct LateGate {
    long: AtomicU64,
    short: AtomicU64,
    // 1 if the short lease came back while the long one was at work
    overtook: AtomicU64,
}

// Waits until a lease got so far, for at most 10,000,000 turns.
fn wait_for(lease: &AtomicU64, far: u64) {
    for _ in 0..10_000_000 {
        if lease.load(Ordering::SeqCst) >= far {
            return;
        }
        yield_now();
    }
}

// Reads a number so often that it takes some tenths of a millisecond.
fn linger(number: &AtomicU64) {
    for _ in 0..300_000 {
        let _ = number.load(Ordering::SeqCst);
    }
}

impl Gate for LateGate {
    fn leased(&self, _worker: u32, block: u32) {
        if block == LONG {
            self.long.store(LEASED, Ordering::SeqCst);
            wait_for(&self.short, LEASED);
            self.long.store(AT_WORK, Ordering::SeqCst);
        } else if block == SHORT {
            self.short.store(LEASED, Ordering::SeqCst);
            wait_for(&self.long, AT_WORK);
            // Whoever needs anything for the work alone has it by now.
            linger(&self.long);
        }
    }

    fn giving(&self, _worker: u32, block: u32) {
        if block == LONG {
            self.long.store(CAME_BACK, Ordering::SeqCst);
        } else if block == SHORT && self.long.load(Ordering::SeqCst) == AT_WORK {
            self.overtook.store(1, Ordering::SeqCst);
        }
    }
}

// A lease with 250 expansions comes back before one with 62,500 whose work began earlier. So no worker
// waits while another expands. A machine with much else to do may delay the short lease that long, so
// there are several searches.
#[test]
fn a_short_lease_overtakes_a_long_one(rt: HostRuntime) -> Result<(), Fail> {
    let settings = Settings {
        workers: 2,
        lot: 100_000,
        wish: 16,
        ..ONE_WORKER
    };
    let mut overtook = 0;
    for _ in 0..3 {
        let gate = LateGate {
            long: AtomicU64::new(0),
            short: AtomicU64::new(0),
            overtook: AtomicU64::new(0),
        };
        let seen = search_sample(&rt, rt.alloc(), Sample::Hall, settings, &gate)?;
        assert_eq!(rt; (seen.end, seen.incumbent), (Some(End::Quiet), None));
        overtook = gate.overtook.load(Ordering::SeqCst);
        if overtook == 1 {
            break;
        }
    }
    assert_eq!(rt; overtook, 1);
    Ok(())
}
