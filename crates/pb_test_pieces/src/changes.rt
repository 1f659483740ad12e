//! Changed certificates: several workers give the very answer that one gives.
ghost use Rattle.std.specs.Prelude.{◌≤◌};

use crate::pieces::answer;
use pb_check::{CertificateFault, CheckError, Claim, Verdict, check, stated_choice};
use pb_estimate::Estimator;
use pb_outside::OpenGate;
use pb_task::Task;
use pb_test_examples::open_square;
use std::alloc::{AllocError, Global};
use std::thread::Threads;

// A certificate of a map of 3 by 3 free cells.
const SQUARE: &str = "pbnf-certificate 2
kind grid
width 6
weight 1 1
plan 4
3
3
1
1
cost 4
rows 7
000000 0 closed
000001 1 closed
000002 2 closed
000800 1 cut
000801 2 cut
000802 3 closed
001002 4 cut
end
";

// A fault as numbers: which it is, and what it says.
fn code_of_fault(fault: CertificateFault) -> (u32, u64, u128) {
    match fault {
        CertificateFault::Syntax { line } => (3, line, 0),
        CertificateFault::Kind => (4, 0, 0),
        CertificateFault::Width { said, wanted } => (5, u64::from(said), u128::from(wanted)),
        CertificateFault::Pattern => (6, 0, 0),
        CertificateFault::Weight => (7, 0, 0),
        CertificateFault::PlanStep { i } => (8, i, 0),
        CertificateFault::NotGoal => (9, 0, 0),
        CertificateFault::Cost { said, real } => (10, said, real),
        CertificateFault::RowOrder { line } => (11, line, 0),
        CertificateFault::BadState { line } => (12, line, 0),
        CertificateFault::NoStart => (13, 0, 0),
        CertificateFault::GoalClosed { line } => (14, line, 0),
        CertificateFault::Missing { line, action } => (15, line, u128::from(action)),
        CertificateFault::TooDear { line, action } => (16, line, u128::from(action)),
        CertificateFault::Low { line } => (17, line, 0),
        CertificateFault::Grounding => (18, 0, 0),
        CertificateFault::Table { line } => (19, 0, line),
        CertificateFault::Unpaid { sum, action } => (20, sum as u64, action as u128),
    }
}

/// An answer as numbers.
pub fn code_of(answer: Result<Verdict, CheckError>) -> (u32, u64, u128) {
    match answer {
        Ok(verdict) => match verdict.claim() {
            Claim::Bounded { cost, bound } => (0, cost, u128::from(bound)),
            Claim::Unsolvable => (1, 0, 0),
        },
        Err(CheckError::Memory) => (2, 0, 0),
        Err(CheckError::Fault(fault)) => code_of_fault(fault),
    }
}

/// The answer for a task of the checker that waits for nobody.
pub fn judge_alone(alloc: Global, task: &Task, bytes: &[u8]) -> Result<Verdict, CheckError> {
    let choice = stated_choice(alloc, task, bytes)?;
    let mut estimator = Estimator::of(alloc, task, &choice)?;
    check(alloc, task, &mut estimator, bytes)
}

/// The same for the map.
pub fn answer_alone(alloc: Global, bytes: &[u8]) -> Result<Verdict, CheckError> {
    let task = open_square(alloc)?;
    judge_alone(alloc, &task, bytes)
}

// Whether so many workers say this of a certificate by pieces of each size.
fn is_said<R: Threads + Sync>(
    rt: &R,
    alloc: Global,
    bytes: &[u8],
    workers: u64,
    wanted: (u32, u64, u128),
) -> bool
    requires { 1 ≤ workers }
{
    code_of(answer(rt, alloc, bytes, workers, 1, &OpenGate)) == wanted
        && code_of(answer(rt, alloc, bytes, workers, 2, &OpenGate)) == wanted
        && code_of(answer(rt, alloc, bytes, workers, 7, &OpenGate)) == wanted
        && code_of(answer(rt, alloc, bytes, workers, 1000, &OpenGate)) == wanted
}

// Whether one to four workers say the same of the certificate with another byte at a place.
fn change_is_alike<R: Threads + Sync>(
    rt: &R,
    alloc: Global,
    at: usize,
    new: u8,
) -> Result<bool, AllocError> {
    let mut bytes = SQUARE.as_bytes().to_vec(alloc)?;
    if at < bytes.len() {
        bytes[at] = new;
    }
    let wanted = code_of(answer_alone(alloc, &bytes));
    Ok(
        is_said(rt, alloc, &bytes, 1, wanted)
            && is_said(rt, alloc, &bytes, 2, wanted)
            && is_said(rt, alloc, &bytes, 3, wanted)
            && is_said(rt, alloc, &bytes, 4, wanted),
    )
}

#[test]
fn changed_certificates_have_one_answer(rt: HostRuntime) {
    let alloc = rt.alloc();
    let length = SQUARE.as_bytes().len();
    for at in 0..length {
        for new in [48u8, 49, 50, 51, 57, 97, 99, 110, 70, 32, 10, 13] {
            let alike = change_is_alike(&rt, alloc, at, new).expect(&rt, "memory");
            assert!(rt; alike, "byte {new} at {at}");
        }
    }
}
