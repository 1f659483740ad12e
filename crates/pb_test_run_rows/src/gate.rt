//! A gate that delays each call by a drawn time.
use pb_outside::Gate;
use std::sync::atomic::{AtomicU64, Ordering};
use std::thread::yield_now;

/// Delays each call by 0 to 4,095 turns. They are drawn from a seed, and few turns are as likely as
/// many.
#[derive(Drop)]
pub struct DelayGate {
    drawn: AtomicU64,
}

// The bits of a number mixed, as Steele, Lea and Flood do for their generator of random numbers
// (OOPSLA 2014).
fn mixed(number: u64) -> u64 {
    // The generator multiplies mod 2^64.
    let one = (number ^ (number >> 30)).wrapping_mul(0xbf58_476d_1ce4_e5b9);
    let two = (one ^ (one >> 27)).wrapping_mul(0x94d0_49bb_1331_11eb);
    two ^ (two >> 31)
}

impl DelayGate {
    /// A gate of this seed.
    pub fn new(seed: u64) -> DelayGate {
        DelayGate {
            drawn: AtomicU64::new(mixed(seed)),
        }
    }

    // Waits for a drawn number of turns.
    fn delay(&self) {
        let drawn = mixed(
            self.drawn
                .fetch_add(0x9e37_79b9_7f4a_7c15, Ordering::SeqCst),
        );
        let most = 1_u64 << (drawn % 13);
        let turns = (drawn >> 20) % most;
        for _ in 0..turns {
            yield_now();
        }
    }
}

impl Gate for DelayGate {
    fn leased(&self, _worker: u32, _block: u32) {
        self.delay();
    }

    fn giving(&self, _worker: u32, _block: u32) {
        self.delay();
    }
}
