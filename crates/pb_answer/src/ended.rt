//! What is answered of a search that ended, whichever engine searched.
ghost use Rattle.std.specs.Prelude.{◌≡◌, ◌≤◌, ◌⊎◌, ℕ, IfOk, Some, None, true};
ghost use Rattle.pb_model.specs.Plan.{IsBound};
ghost use Rattle.pb_task.specs.Parts.{space_of};
ghost use Rattle.pb_estimate.specs.Estimates.{suits};
ghost use Rattle.pb_lists.specs.Store.{store_with, IsQuietEnd};
ghost use Rattle.pb_command.specs.Meaning.{IsInRange, Solve};
ghost use Rattle.pb_command.specs.Causes.{solve_meant};
ghost use Rattle.pb_answer.specs.Searches.{weight_asked};
ghost use Rattle.pb_answer.specs.Named.{NamesTell};
ghost use Rattle.pb_answer.specs.Ended.{guide_by, LeavesQuietRows, CanBeCertified};
ghost use Rattle.pb_answer.specs.Claims.{IsCertificate, Stops};
ghost use Rattle.pb_answer.specs.Answer.{IsSolved, IsUnsolvable, IsStopped, certificates_of, journals_of, said_of};

use crate::answer::{Answer, CertificateText, SavedCertificate, SavedJournal};
use crate::status::Status;
use pb_cert::{Certificate, Plan, trace};
use pb_command::SolveCommand;
use pb_estimate::{Choice, Spelling};
use pb_lists::Store;
use pb_report::Report;
use pb_task::Task;
use std::alloc::{AllocError, Global};

/// The answer to a search that used up its budget, with its journal. An error is out of memory.
pub fn report_stop<'a>(
    alloc: Global,
    _task: &Task,
    _choice: &Choice,
    solve: &SolveCommand<'a>,
    journal: Option<SavedJournal<'a>>,
) -> Result<Answer<'a>, AllocError>
    requires { Stops (λ outputs. journals_of journal ≡ outputs) (solve_meant solve.now) _choice.now
        _task.now }
    ensures { IfOk result (λ a. IsStopped (solve_meant solve.now) _choice.now _task.now
        (said_of a)) }
{
    Ok(Answer {
        status: Status::Stopped,
        report: Report::of_stop(alloc, solve.settings.budget)?,
        certificate: None,
        journal,
        // `answer_solve` adds the looks.
        looks: 0,
    })
}

/// The answer to a search that left no row Opened, with its certificate and this journal. The
/// certificate borrows the store. An error is out of memory.
pub fn report_end<'a, S: Store>(
    alloc: Global,
    task: &Task,
    choice: &Choice,
    solve: &SolveCommand<'a>,
    store: &'a S,
    journal: Option<SavedJournal<'a>>,
) -> Result<Answer<'a>, AllocError>
    requires range { IsInRange (Solve (solve_meant solve.now)) }
    requires suits { suits task.now choice.now ≡ true }
    requires whole { S.is_whole store.now }
    requires of_task { S.is_of store.now (space_of task.now) }
    requires quiet { LeavesQuietRows (solve_meant solve.now) task.now choice.now (S.home store.now)
        (store_with (S.rows store.now) (S.weight store.now) (S.incumbent store.now))
        (journals_of journal) }
    requires names { NamesTell task.now }
    ensures { IfOk result (λ a. IsSolved (solve_meant solve.now) choice.now task.now
        (said_of a) ⊎ IsUnsolvable (solve_meant solve.now) choice.now task.now (said_of a)) }
{
    match store.incumbent() {
        Some(_) => report_plan(alloc, task, choice, solve, store, journal),
        None => report_none(alloc, task, choice, solve, store, journal),
    }
}

// The plan that was found, with its certificate and journal.
fn report_plan<'a, S: Store>(
    alloc: Global,
    task: &Task,
    choice: &Choice,
    solve: &SolveCommand<'a>,
    store: &'a S,
    journal: Option<SavedJournal<'a>>,
) -> Result<Answer<'a>, AllocError>
    requires range { IsInRange (Solve (solve_meant solve.now)) }
    requires suits { suits task.now choice.now ≡ true }
    requires whole { S.is_whole store.now }
    requires of_task { S.is_of store.now (space_of task.now) }
    requires quiet { LeavesQuietRows (solve_meant solve.now) task.now choice.now (S.home store.now)
        (store_with (S.rows store.now) (S.weight store.now) (S.incumbent store.now))
        (journals_of journal) }
    requires names { NamesTell task.now }
    requires known { (cost : ℕ) × (S.incumbent store.now ≡ Some cost) }
    ensures { IfOk result (λ a. IsSolved (solve_meant solve.now) choice.now task.now
        (said_of a)) }
{
    // Called for its clause `lawful`: the proof asks for a lawful task.
    let _lawful = task.max_degree();
    let plan = trace(alloc, task, store)?;
    let bound = bound_of(solve.settings.num, solve.settings.den, plan.cost());
    let report = Report::of_plan(alloc, task, &plan, bound)?;
    let certificate = certify(alloc, task, choice, solve, Some(plan), store)?;
    Ok(Answer {
        status: Status::Success,
        report,
        certificate,
        journal,
        looks: 0,
    })
}

// There is no plan, with the certificate of that and the journal.
fn report_none<'a, S: Store>(
    alloc: Global,
    task: &Task,
    choice: &Choice,
    solve: &SolveCommand<'a>,
    store: &'a S,
    journal: Option<SavedJournal<'a>>,
) -> Result<Answer<'a>, AllocError>
    requires range { IsInRange (Solve (solve_meant solve.now)) }
    requires suits { suits task.now choice.now ≡ true }
    requires whole { S.is_whole store.now }
    requires quiet { LeavesQuietRows (solve_meant solve.now) task.now choice.now (S.home store.now)
        (store_with (S.rows store.now) (S.weight store.now) (S.incumbent store.now))
        (journals_of journal) }
    requires none { S.incumbent store.now ≡ None }
    ensures { IfOk result (λ a. IsUnsolvable (solve_meant solve.now) choice.now task.now
        (said_of a)) }
{
    let report = Report::of_no_plan(alloc)?;
    let certificate = certify(alloc, task, choice, solve, None, store)?;
    Ok(Answer {
        status: Status::NoPlan,
        report,
        certificate,
        journal,
        looks: 0,
    })
}

// The certificate with this plan or with none, if it has a name. It states this choice of an
// estimate.
pub(crate) fn certify<'a, S: Store>(
    alloc: Global,
    task: &Task,
    choice: &Choice,
    solve: &SolveCommand<'a>,
    plan: Option<Plan>,
    store: &'a S,
) -> Result<Option<SavedCertificate<'a>>, AllocError>
    requires range { IsInRange (Solve (solve_meant solve.now)) }
    requires suits { suits task.now choice.now ≡ true }
    requires whole { S.is_whole store.now }
    requires end { IsQuietEnd (space_of task.now)
        (guide_by task.now choice.now (S.home store.now))
        (store_with (S.rows store.now) (S.weight store.now) (S.incumbent store.now)) }
    requires weight { S.weight store.now ≡ weight_asked (solve_meant solve.now) }
    ensures { IfOk result (λ saved. CanBeCertified task.now
        (store_with (S.rows store.now) (S.weight store.now) (S.incumbent store.now)) plan
        → IsCertificate (solve_meant solve.now).certificate task.now choice.now
        (weight_asked (solve_meant solve.now)) (guide_by task.now choice.now (S.home store.now))
        (store_with (S.rows store.now) (S.weight store.now) (S.incumbent store.now)) plan
        (certificates_of saved)) }
{
    // Called for its clause `lawful`, as above.
    let _lawful = task.max_degree();
    match solve.certificate {
        Some(name) => {
            let stated = choice.clone()?;
            let spelling = Spelling::of(task, stated);
            let certificate = Certificate::of(alloc, spelling, plan, store)?;
            let text = CertificateText::Found(certificate);
            Ok(Some(SavedCertificate { name, text }))
        }
        None => Ok(None),
    }
}

// The least whole number that is no less than the cost divided by the weight.
pub(crate) fn bound_of(num: u64, den: u64, cost: u64) -> u64
    requires den { 1 ≤ den }
    requires weight { den ≤ num }
    requires num { num ≤ 1000 }
    ensures { IsBound (record { num = num; den = den }) cost result }
{
    // The product may need more than 64 bits; the quotient is at most the cost.
    let least = (u128::from(den) * u128::from(cost) + (u128::from(num) - 1)) / u128::from(num);
    least as u64
}
