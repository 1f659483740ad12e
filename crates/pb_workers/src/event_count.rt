//! The count of events on which workers sleep that found nothing to lease.
use crossbeam_utils::CachePadded;
use std::sync::atomic::{AtomicU64, Ordering};
use std::sync::{Condvar, Mutex, Wait};

#[derive(Drop)]
struct Count {
    moves: Mutex<u64>,
    moved: Condvar,
    // changed under the lock of `moves` alone
    sleepers: AtomicU64,
}

/// Counts what can make a block free: leases that came back, and workers that signed off. The count
/// wraps. A worker notes it before it asks for a lease, and if it gets none sleeps until the
/// count has moved since.
#[derive(Drop)]
pub struct EventCount {
    count: CachePadded<Count>,
}

impl EventCount {
    /// A count that has not moved, on which nobody sleeps.
    pub fn new() -> EventCount {
        EventCount {
            count: CachePadded::new(Count {
                moves: Mutex::new(0),
                moved: Condvar::new(),
                sleepers: AtomicU64::new(0),
            }),
        }
    }

    /// The count as it is now.
    pub fn note<W: Wait>(&self, rt: &W) -> u64 {
        *self.count.moves.lock(rt)
    }

    /// Moves the count, and wakes all sleepers if there are any.
    pub fn advance<W: Wait>(&self, rt: &W) {
        let mut moves = self.count.moves.lock(rt);
        // May wrap: sleepers only test for a change, and none sleeps through 2^64 moves.
        *moves = moves.wrapping_add(1);
        // Sleepers are counted under the same lock, so none is missed.
        if self.count.sleepers.load(Ordering::SeqCst) > 0 {
            self.count.moved.notify_all();
        }
    }

    /// Sleeps until the count has moved since it was noted.
    pub fn sleep_past<W: Wait>(&self, rt: &W, noted: u64) {
        let moves = self.count.moves.lock(rt);
        self.count.sleepers.fetch_add(1, Ordering::SeqCst);
        let _moves = self
            .count
            .moved
            .wait_while(rt, moves, |moves| *moves == noted);
        self.count.sleepers.fetch_sub(1, Ordering::SeqCst);
    }
}
