//! Checking with one worker: the verdict on a certificate, or its first fault.
ghost use Rattle.std.specs.Prelude.{◌≡◌, ◌+◌, ◌<◌, ◌^◌, length, IfOk, Ok, Err};
ghost use Rattle.pb_task.specs.Parts.{space_of, IsTask};
ghost use Rattle.pb_estimate.specs.Tables.{IsOfTask};
ghost use Rattle.pb_check.specs.declared.fault.Verdict.{Verdict};
ghost use Rattle.pb_check.specs.Faults.{Gives};
ghost use Rattle.pb_check.specs.Judging.{checked};
ghost use Rattle.pb_check.specs.Reading.{stated_choice};
ghost use Rattle.pb_check.specs.Shown.{IsAccepted, IsCutOff, ShowsClaim, VerdictHolds};
ghost use Rattle.pb_check.specs.declared.fault.CertificateFault.TheVariants.{Syntax};
ghost use Rattle.pb_lines.specs.Words.{line_feeds};

use crate::fault::{CheckError, Verdict};
use crate::judging::judge;
use crate::reading::text_of;
use pb_estimate::Estimator;
use pb_task::Task;
use std::alloc::Global;

#[tactic(auto, unfolding(crate::specs::Judging::checked))]
fn first_fault(
    alloc: Global,
    task: &Task,
    estimator: &mut Estimator,
    bytes: &[u8],
) -> Result<Verdict, CheckError>
    requires task { IsOfTask estimator.old task.now (stated_choice task.now bytes.now) }
    requires bytes { length bytes.now < 2 ^ 63 }
    ensures exact { Gives (λ x. x) result (checked task.now bytes.now) }
    ensures lawful { IfOk result (λ verdict. IsTask task.now) }
    ensures task { IsOfTask estimator.new task.now (stated_choice task.now bytes.now) }
{
    let text = text_of(alloc, bytes)?;
    judge(alloc, task, estimator, &text)
}

/// The verdict on a certificate for the task, or its first fault. The estimator is one of this task
/// by `stated_choice` of the certificate.
///
/// The memory that it takes grows with the lines read so far, and not with a number that they
/// state.
pub fn check(
    alloc: Global,
    task: &Task,
    estimator: &mut Estimator,
    bytes: &[u8],
) -> Result<Verdict, CheckError>
    requires task { IsOfTask estimator.old task.now (stated_choice task.now bytes.now) }
    requires bytes { length bytes.now < 2 ^ 63 }
    // Which verdict or fault it is, unless memory ran out.
    ensures exact { Gives (λ x. x) result (checked task.now bytes.now) }
    // What is accepted spells a valid certificate of the task.
    ensures valid { IfOk result (λ verdict. IsAccepted task.now bytes.now verdict) }
    // What spells a valid certificate of the task is accepted, unless memory ran out.
    ensures only { (verdict : Verdict) → IsAccepted task.now bytes.now verdict
        → Gives (λ x. x) result (Ok verdict) }
    // What is accepted shows that no plan costs less than the plan's cost divided by the weight, or
    // that there is none.
    ensures claim { IfOk result (λ verdict. ShowsClaim task.now bytes.now verdict) }
    // So what the verdict says is true of the task.
    ensures holds { IfOk result (λ verdict. VerdictHolds (space_of task.now) verdict) }
    // A certificate that is cut off is refused in the line that it ends in, unless memory ran out.
    ensures cut { IsCutOff bytes.now → Gives (λ x. x) result
        (Err (Syntax (1 + line_feeds bytes.now))) }
    ensures task { IsOfTask estimator.new task.now (stated_choice task.now bytes.now) }
{
    first_fault(alloc, task, estimator, bytes)
}
