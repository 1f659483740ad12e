//! The verdict on a certificate by one worker or by several.
ghost use Rattle.std.specs.Prelude.{◌≡◌, ◌≤◌, ◌+◌, ◌^◌, All, IfOk, Ok, length, true, vec_len};
ghost use Rattle.std.specs.Option.{option_map};
ghost use Rattle.pb_task.specs.Parts.{space_of};
ghost use Rattle.pb_estimate.specs.Estimates.{suits};
ghost use Rattle.pb_estimate.specs.Tables.{IsOfTask};
ghost use Rattle.pb_check.specs.declared.fault.Verdict.{Verdict};
ghost use Rattle.pb_check.specs.Faults.{Gives};
ghost use Rattle.pb_check.specs.Judging.{checked};
ghost use Rattle.pb_check.specs.Shown.{IsAccepted, ShowsClaim, VerdictHolds};

use pb_check::{CheckError, Verdict, check, check_pieces, piece_for, stated_choice};
use pb_estimate::{Choice, Estimator};
use pb_outside::Gate;
use pb_task::Task;
use std::alloc::{AllocError, Global};
use std::thread::Threads;

// As many estimators as there are workers. They share the table of the pattern or the tables, if the
// choice has any.
fn estimators_for(
    alloc: Global,
    task: &Task,
    choice: &Choice,
    workers: u64,
) -> Result<Vec<Estimator>, AllocError>
    requires suits { suits task.now choice.now ≡ true }
    ensures many { IfOk result (λ estimators. vec_len estimators ≡ workers) }
    ensures each { IfOk result (λ estimators.
        All (λ e. IsOfTask e task.now choice.now) estimators.items) }
{
    let made = choice.table(alloc, task)?;
    let table = made.as_ref();
    let mut estimators = Vec::with_capacity(alloc, workers as usize)?;
    for _ in 0..workers {
        let estimator = Estimator::by(alloc, task, choice, table)?;
        // There is room for it, so this takes no memory.
        estimators.push_reserved(estimator);
    }
    Ok(estimators)
}

/// The verdict on a certificate for the task, or its first fault: the same for each number of
/// workers. One worker judges alone. Several judge a piece of the rows each, in threads of their
/// own, and the gate is told of each piece.
pub fn verdict_by<R: Threads + Sync, G: Gate>(
    rt: &R,
    alloc: Global,
    task: &Task,
    workers: u64,
    certificate: &[u8],
    gate: &G,
) -> Result<Verdict, CheckError>
    ensures exact { Gives (λ x. x) result (checked task.now certificate.now) }
    ensures valid { IfOk result (λ verdict. IsAccepted task.now certificate.now verdict) }
    ensures only { (verdict : Verdict) → IsAccepted task.now certificate.now verdict
        → Gives (λ x. x) result (Ok verdict) }
    ensures claim { IfOk result (λ verdict. ShowsClaim task.now certificate.now verdict) }
    ensures holds { IfOk result (λ verdict. VerdictHolds (space_of task.now) verdict) }
{
    // The head is read first: estimators are made by the choice that it states.
    let choice = stated_choice(alloc, task, certificate)?;
    // One worker needs no thread.
    if workers <= 1 {
        let mut estimator = Estimator::of(alloc, task, &choice)?;
        return check(alloc, task, &mut estimator, certificate);
    }
    let mut estimators = estimators_for(alloc, task, &choice, workers)?;
    let piece = piece_for(rt, certificate, workers);
    check_pieces(
        rt,
        alloc,
        task,
        estimators.as_mut_slice(),
        certificate,
        piece,
        gate,
    )
}
