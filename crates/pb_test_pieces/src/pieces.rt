//! A certificate that several workers check, by pieces of several sizes.
ghost use Rattle.std.specs.Prelude.{◌≡◌, ◌≤◌, All, IfOk, true, vec_len};
ghost use Rattle.pb_estimate.specs.Estimates.{suits};
ghost use Rattle.pb_estimate.specs.Tables.{IsOfTask};

use pb_check::{CertificateFault, CheckError, Claim, Verdict, check_pieces, stated_choice};
use pb_estimate::{Choice, Estimator};
use pb_outside::{Gate, OpenGate};
use pb_task::Task;
use pb_test_examples::open_square;
use std::alloc::{AllocError, Global};
use std::sync::atomic::{AtomicBool, Ordering};
use std::thread::{Threads, yield_now};

// A certificate of a map of 3 by 3 free cells, by estimates that are distances.
const SQUARE: &str = "pbnf-certificate 1
kind grid
weight 1 1
plan 4
3
3
1
1
cost 4
rows 7
0000000000000000000000000000000000000000000000000000000000000000 0 closed
0000000000000000000000000000000000000000000000000000000000000001 1 closed
0000000000000000000000000000000000000000000000000000000000000002 2 closed
0000000000000000000000000000000000000000000000000000000000000800 1 cut
0000000000000000000000000000000000000000000000000000000000000801 2 cut
0000000000000000000000000000000000000000000000000000000000000802 3 closed
0000000000000000000000000000000000000000000000000000000000001002 4 cut
end
";

// The same with two faulty rows: the one of line 14 is too low, and that of line 17 is a closed goal.
const TWO_FAULTS: &str = "pbnf-certificate 1
kind grid
weight 1 1
plan 4
3
3
1
1
cost 4
rows 7
0000000000000000000000000000000000000000000000000000000000000000 0 closed
0000000000000000000000000000000000000000000000000000000000000001 1 closed
0000000000000000000000000000000000000000000000000000000000000002 2 closed
0000000000000000000000000000000000000000000000000000000000000800 0 cut
0000000000000000000000000000000000000000000000000000000000000801 2 cut
0000000000000000000000000000000000000000000000000000000000000802 3 closed
0000000000000000000000000000000000000000000000000000000000001002 4 closed
end
";

// The same with a line besides that is not spelled as a row's: line 12.
const THREE_FAULTS: &str = "pbnf-certificate 1
kind grid
weight 1 1
plan 4
3
3
1
1
cost 4
rows 7
0000000000000000000000000000000000000000000000000000000000000000 0 closed
000000000000000000000000000000000000000000000000000000000000000A 1 closed
0000000000000000000000000000000000000000000000000000000000000002 2 closed
0000000000000000000000000000000000000000000000000000000000000800 0 cut
0000000000000000000000000000000000000000000000000000000000000801 2 cut
0000000000000000000000000000000000000000000000000000000000000802 3 closed
0000000000000000000000000000000000000000000000000000000000001002 4 closed
end
";

// As many estimators of the task as there are workers.
fn estimators_for(
    alloc: Global,
    task: &Task,
    choice: &Choice,
    workers: u64,
) -> Result<Vec<Estimator>, AllocError>
    requires suits { suits task.now choice.now ≡ true }
    ensures many { IfOk result (λ estimators. vec_len estimators ≡ workers) }
    ensures each { IfOk result (λ estimators.
        All (λ e. IsOfTask e task.now choice.now) estimators.items) }
{
    let mut estimators = Vec::with_capacity(alloc, workers as usize)?;
    for _ in 0..workers {
        let estimator = Estimator::of(alloc, task, choice)?;
        estimators.push_reserved(estimator);
    }
    Ok(estimators)
}

/// The answer of so many workers to a certificate of the task.
pub fn answer_for<R: Threads + Sync, G: Gate>(
    rt: &R,
    alloc: Global,
    task: &Task,
    bytes: &[u8],
    workers: u64,
    piece: u64,
    gate: &G,
) -> Result<Verdict, CheckError>
    requires some { 1 ≤ workers }
    requires piece { 1 ≤ piece }
{
    let choice = stated_choice(alloc, task, bytes)?;
    let mut estimators = estimators_for(alloc, task, &choice, workers)?;
    check_pieces(
        rt,
        alloc,
        task,
        estimators.as_mut_slice(),
        bytes,
        piece,
        gate,
    )
}

/// The answer of so many workers to a certificate of the map.
pub fn answer<R: Threads + Sync, G: Gate>(
    rt: &R,
    alloc: Global,
    bytes: &[u8],
    workers: u64,
    piece: u64,
    gate: &G,
) -> Result<Verdict, CheckError>
    requires some { 1 ≤ workers }
    requires piece { 1 ≤ piece }
{
    let task = open_square(alloc)?;
    answer_for(rt, alloc, &task, bytes, workers, piece, gate)
}

// Whether the row in this line is refused as too low.
fn is_low(answer: Result<Verdict, CheckError>, wanted: u64) -> bool {
    match answer {
        Err(CheckError::Fault(CertificateFault::Low { line })) => line == wanted,
        _ => false,
    }
}

// Whether this line is refused as misspelled.
fn is_misspelled(answer: Result<Verdict, CheckError>, wanted: u64) -> bool {
    match answer {
        Err(CheckError::Fault(CertificateFault::Syntax { line })) => line == wanted,
        _ => false,
    }
}

// Whether a plan of this cost is accepted.
fn is_accepted(answer: Result<Verdict, CheckError>, wanted: u64) -> bool {
    match answer {
        Ok(verdict) => match verdict.claim() {
            Claim::Bounded { cost, .. } => cost == wanted,
            Claim::Unsolvable => false,
        },
        Err(_) => false,
    }
}

// Whether so many workers with pieces of so many rows report the first fault of both texts.
fn finds_first<R: Threads + Sync>(rt: &R, alloc: Global, workers: u64, piece: u64) -> bool
    requires some { 1 ≤ workers }
    requires piece { 1 ≤ piece }
{
    let two = TWO_FAULTS.as_bytes();
    let three = THREE_FAULTS.as_bytes();
    is_low(answer(rt, alloc, two, workers, piece, &OpenGate), 14)
        && is_misspelled(answer(rt, alloc, three, workers, piece, &OpenGate), 12)
}

#[test]
fn the_first_fault_is_reported(rt: HostRuntime) {
    let alloc = rt.alloc();
    for workers in 1..5u64 {
        assert!(rt; finds_first(&rt, alloc, workers, 1));
        assert!(rt; finds_first(&rt, alloc, workers, 2));
        assert!(rt; finds_first(&rt, alloc, workers, 7));
        assert!(rt; finds_first(&rt, alloc, workers, 1000));
    }
}

// A gate that holds piece 0 until piece 1 is begun too.
#[derive(Drop)]
struct PairGate {
    begun: AtomicBool,
    both: AtomicBool,
}

impl Gate for PairGate {
    fn leased(&self, _worker: u32, piece: u32) {
        if piece == 1 {
            self.begun.store(true, Ordering::SeqCst);
        }
        if piece != 0 {
            return;
        }
        // Not for ever: a check that never gets there is to fail the test, and not to hang.
        for _ in 0..10_000_000 {
            if self.begun.load(Ordering::SeqCst) {
                self.both.store(true, Ordering::SeqCst);
                return;
            }
            yield_now();
        }
    }

    fn giving(&self, _worker: u32, _piece: u32) {}
}

#[test]
fn two_pieces_are_judged_at_once(rt: HostRuntime) {
    let gate = PairGate {
        begun: AtomicBool::new(false),
        both: AtomicBool::new(false),
    };
    let bytes = SQUARE.as_bytes();
    assert!(rt; is_accepted(answer(&rt, rt.alloc(), bytes, 2, 2, &gate), 4));
    assert!(rt; gate.both.load(Ordering::SeqCst));
}
