//! A search by two workers, one of which a gate holds while blocks near its own wait.
use crate::samples::{ONE_WORKER, Sample, search_sample};
use pb_machine::Settings;
use pb_outside::Gate;
use std::sync::atomic::{AtomicU64, Ordering};
use std::test::Fail;
use std::thread::yield_now;

// Holds the worker that has the hundredth lease until leases of the other one were to go on or come
// back 50 times, for at most 10,000,000 turns.
#[derive(Drop)]
struct SlowGate {
    leased: AtomicU64,
    giving: AtomicU64,
    waited: AtomicU64,
}

impl Gate for SlowGate {
    fn leased(&self, _worker: u32, _block: u32) {
        if self.leased.fetch_add(1, Ordering::SeqCst) != 100 {
            return;
        }
        let before = self.giving.load(Ordering::SeqCst);
        for _ in 0..10_000_000 {
            if self.giving.load(Ordering::SeqCst).wrapping_sub(before) >= 50 {
                self.waited.store(1, Ordering::SeqCst);
                return;
            }
            yield_now();
        }
    }

    fn giving(&self, _worker: u32, _block: u32) {
        self.giving.fetch_add(1, Ordering::SeqCst);
    }
}

// The best block near the held one can't be leased meanwhile, so the other worker marks it as its
// rival. No worker takes a mark away. Leases are renewed, and workers go on with other leases.
#[test]
fn a_waiting_rival_is_marked(rt: HostRuntime) -> Result<(), Fail> {
    let gate = SlowGate {
        leased: AtomicU64::new(0),
        giving: AtomicU64::new(0),
        waited: AtomicU64::new(0),
    };
    let settings = Settings {
        workers: 2,
        budget: 5000,
        lot: 1,
        wish: 256,
        ..ONE_WORKER
    };
    let seen = search_sample(&rt, rt.alloc(), Sample::BoardWithoutPlan, settings, &gate)?;
    assert_eq!(rt; gate.waited.load(Ordering::SeqCst), 1);
    assert!(rt; seen.marks > 0);
    assert_eq!(rt; seen.colds, 0);
    assert!(rt; seen.renewals > 0);
    assert!(rt; seen.switches > 0);
    Ok(())
}
