//! A whole run by two workers, one of which a gate holds while blocks near its own wait.
use pb_outside::{Gate, MemShelf, MemSink, Memory};
use pb_test_run::{gated_outcome, outcome};
use std::alloc::Global;
use std::sync::atomic::{AtomicU64, Ordering};
use std::test::Fail;
use std::thread::yield_now;

// Two tiles are exchanged, so there is no plan, and 181,440 boards can be reached.
const BOARD: &str = "3 3\n0 2 1\n3 4 5\n6 7 8\n";

// Holds the worker that has the hundredth lease until leases of the other one were to go on or come
// back 50 times, for at most 10,000,000 turns.
#[derive(Drop)]
struct OneSlowGate {
    leased: AtomicU64,
    giving: AtomicU64,
    waited: AtomicU64,
}

impl Gate for OneSlowGate {
    fn leased(&self, _worker: u32, _block: u32) {
        if self.leased.fetch_add(1, Ordering::SeqCst) != 100 {
            return;
        }
        let before = self.giving.load(Ordering::SeqCst);
        for _ in 0..10_000_000 {
            // The count only grows, which the prover doesn't know of an atomic number.
            if self.giving.load(Ordering::SeqCst).wrapping_sub(before) >= 50 {
                self.waited.store(1, Ordering::SeqCst);
                return;
            }
            yield_now();
        }
    }

    fn giving(&self, _worker: u32, _block: u32) {
        self.giving.fetch_add(1, Ordering::SeqCst);
    }
}

// How many lines of a journal begin with this word and a space.
fn count_of(journal: &[u8], word: &[u8]) -> usize {
    let mut count = 0usize;
    for line in journal.split(|byte| *byte == b'\n') {
        if line.starts_with(word) {
            // No text has so many lines, and the sum needs no bound this way.
            count = count.saturating_add(1);
        }
    }
    count
}

// How many releases of a journal are followed at once by a lease of the same worker.
fn count_of_switches(journal: &[u8]) -> usize {
    let mut count = 0usize;
    let mut released = b' ';
    for line in journal.split(|byte| *byte == b'\n') {
        if line.starts_with(b"lease ") && line.len() > 6 && line[6] == released {
            count = count.saturating_add(1);
        }
        released = if line.starts_with(b"release ") && line.len() > 8 {
            line[8]
        } else {
            b' '
        };
    }
    count
}

// The best block near the held one can't be leased meanwhile, so the other worker marks it, and the
// journal says so. It also has leases that were renewed, and workers that went on with another one.
#[test]
fn a_rival_that_waits_is_in_the_journal(rt: HostRuntime) -> Result<(), Fail> {
    let alloc = rt.alloc();
    let mut files = MemShelf::new(alloc)?;
    files.add("board", BOARD.as_bytes())?;
    files.reserve("j", 1_000_000)?;
    let mut sink = MemSink::new(alloc, 4096)?;
    let gate = OneSlowGate {
        leased: AtomicU64::new(0),
        giving: AtomicU64::new(0),
        waited: AtomicU64::new(0),
    };
    let line = "solve tiles board --workers 2 --lot 1 --budget 5000 --trace j";
    let status = gated_outcome(&rt, alloc, line, &mut files, &mut sink, &gate)?;
    assert_eq!(rt; status, 2);
    assert_eq!(rt; gate.waited.load(Ordering::SeqCst), 1);
    assert!(rt; files.has("j"));
    let journal = files.file("j");
    assert!(rt; count_of(journal, b"hot ") > 0);
    assert_eq!(rt; count_of(journal, b"cold "), 0);
    assert!(rt; count_of(journal, b"renew ") > 0);
    assert!(rt; count_of_switches(journal) > 0);
    let line = "journal tiles j board";
    outcome(&rt, alloc, line, &mut files, &mut sink)?;
    assert!(rt; sink.bytes().starts_with(b"stopped budget 5000\njournal "));
    Ok(())
}
