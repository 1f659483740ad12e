//! A made task is solved, and what came out is checked.
ghost use Rattle.std.specs.Prelude.{◌≡◌, ◌≤◌, ◌<◌, ◌^◌, ℕ, IfOk, Some, length};
ghost use Rattle.std.specs.Arc.{arc_value};
ghost use Rattle.pb_machine.specs.Settings.{AreInRange, weight_of};
ghost use Rattle.pb_model.specs.Plan.{IsBound, HasNoPlan, NoneCheaper};
ghost use Rattle.pb_task.specs.Parts.{space_of};
ghost use Rattle.pb_estimate.specs.Choices.{Plain};
ghost use Rattle.pb_workers.specs.Ends.{home_store};
ghost use Rattle.pb_check.specs.declared.fault.Claim.TheVariants.{Bounded, Unsolvable};
ghost use Rattle.pb_made.specs.Made.{IsSize, OfMade};
ghost use Rattle.pb_made.specs.Answers.{IfAccepted, IfNoneAccepted, IfStopped, IsAnswered};
ghost use Rattle.pb_made.specs.Answers.{HasPlan, IsCertified, IsStopped, unweighted};
ghost use Rattle.pb_made.specs.Answers.{made_settings};
ghost use Rattle.pb_search.specs.Ends.{searched_guide};
ghost use Rattle.pb_search.specs.Searches.{LeavesQuiet};
ghost use Rattle.pb_cert.specs.Found.{IsPlanOf, IsCertificateOf};

use crate::MadeAnswer;
use crate::certified::{verdict_of, written_text};
use crate::made_task::made_task;
use pb_cert::{Certificate, Plan, trace};
use pb_estimate::{Choice, Spelling};
use pb_lease::LeaseGraph;
use pb_machine::{End, STANDARD, Settings};
use pb_outside::Gate;
use pb_search::search;
use pb_task::{Kind, Task};
use std::alloc::{AllocError, Global};
use std::sync::{Arc, Wait};
use std::thread::Threads;

// What a made task is searched with: these workers, the weight 1, and all else as it is by default.
fn made_settings(workers: u32) -> Settings
    requires some { 1 ≤ workers }
    requires most { workers ≤ 64 }
    ensures settings { result ≡ made_settings workers }
    ensures range { AreInRange result }
{
    Settings {
        workers,
        ..STANDARD
    }
}

/// Makes the texts of this kind, seed and size, reads them, and solves their task with so many
/// workers. Then it writes the certificate of the search and checks it. The gate is told of each
/// lease. An error is out of memory. There is no other answer: made texts always spell a task, and
/// what is written of a quiet search is always accepted.
pub fn solve_made<R: Threads + Wait + Sync, G: Gate>(
    rt: &R,
    alloc: Global,
    kind: Kind,
    seed: u64,
    size: u64,
    workers: u32,
    gate: &G,
) -> Result<MadeAnswer, AllocError>
    requires seed { seed < 2 ^ 32 }
    requires size { IsSize kind size }
    requires some { 1 ≤ workers }
    requires most { workers ≤ 64 }

    // A plan of the made task has the cost, and none is cheaper.
    ensures plan { IfOk result (λ a. IfAccepted a (λ cost bound.
        OfMade kind seed size (λ task. HasPlan task cost))) }
    ensures least { IfOk result (λ a. IfAccepted a (λ cost bound.
        OfMade kind seed size (λ task. NoneCheaper (space_of task) unweighted cost))) }
    ensures bound { IfOk result (λ a. IfAccepted a (λ cost bound.
        IsBound unweighted cost bound)) }

    // A search with these workers found it, and the certificate of that search is accepted with
    // this cost and bound.
    ensures certified { IfOk result (λ a. IfAccepted a (λ cost bound.
        OfMade kind seed size (λ task. IsCertified task workers (Bounded cost bound)))) }

    // The made task has no plan. A search with these workers found none, and its certificate is
    // accepted.
    ensures none { IfOk result (λ a. IfNoneAccepted a
        (OfMade kind seed size (λ task. HasNoPlan (space_of task)))) }
    ensures none_certified { IfOk result (λ a. IfNoneAccepted a
        (OfMade kind seed size (λ task. IsCertified task workers Unsolvable))) }

    // The search of the made task, with these workers, used up its budget.
    ensures stopped { IfOk result (λ a. IfStopped a (λ budget.
        OfMade kind seed size (λ task. IsStopped task workers budget))) }
{
    // Both numbers are below 2^32, by `seed` and `size`.
    let made = made_task(alloc, kind, seed as u32, size as u32)?;
    let task = Arc::new(alloc, made)?;
    answer_task(rt, alloc, &task, workers, gate)
}

// Solves a task, and checks the certificate.
fn answer_task<R: Threads + Wait + Sync, G: Gate>(
    rt: &R,
    alloc: Global,
    task: &Arc<Task>,
    workers: u32,
    gate: &G,
) -> Result<MadeAnswer, AllocError>
    requires some { 1 ≤ workers }
    requires most { workers ≤ 64 }
    ensures { IfOk result (IsAnswered (arc_value task.now) workers) }
{
    let settings = made_settings(workers);
    let budget = settings.budget;
    let graph = search(rt, alloc, task, Choice::plain(), settings, gate)?;
    match graph.end() {
        Some(End::Quiet) => answer_end(alloc, task, &graph, workers),
        Some(End::Budget) => Ok(MadeAnswer::Stopped { budget }),
        // `search` gives no other end: that memory ran out is its error.
        Some(End::Memory) | None => unreachable!(),
    }
}

// A quiet search: its certificate is written and checked.
fn answer_end(
    alloc: Global,
    task: &Task,
    graph: &LeaseGraph,
    workers: u32,
) -> Result<MadeAnswer, AllocError>
    requires { LeavesQuiet task.now Plain (made_settings workers) graph.now }
    ensures { IfOk result (IsAnswered task.now workers) }
{
    let plan = best_plan(alloc, task, graph)?;
    let text = certificate_text(alloc, task, plan, graph)?;
    let judgement = verdict_of(alloc, task, text.as_slice())?;
    match judgement {
        Some(verdict) => Ok(MadeAnswer::Accepted { verdict }),
        // The certificate of a quiet search is always accepted.
        None => unreachable!(),
    }
}

// The plan that the rows lead to, if there is one.
fn best_plan(alloc: Global, task: &Task, graph: &LeaseGraph) -> Result<Option<Plan>, AllocError>
    requires { LeavesQuiet task.now Plain graph.now.table.settings graph.now }
    ensures { IfOk result (IsPlanOf task.now
        (searched_guide task.now graph.now.table.abstraction Plain)
        (home_store graph.now)) }
{
    match graph.incumbent() {
        Some(_) => traced_plan(alloc, task, graph),
        None => Ok(None),
    }
}

// The plan that the rows lead to, which there is.
fn traced_plan(alloc: Global, task: &Task, graph: &LeaseGraph) -> Result<Option<Plan>, AllocError>
    requires quiet { LeavesQuiet task.now Plain graph.now.table.settings graph.now }
    requires known { (cost : ℕ) × (graph.now.incumbent ≡ Some cost) }
    ensures { IfOk result (IsPlanOf task.now
        (searched_guide task.now graph.now.table.abstraction Plain)
        (home_store graph.now)) }
{
    // Called for its clause `lawful`: the proof asks for a lawful task.
    let _lawful = task.max_degree();
    let plan = trace(alloc, task, graph)?;
    Ok(Some(plan))
}

// The text of the certificate with this plan, or with none.
fn certificate_text(
    alloc: Global,
    task: &Task,
    plan: Option<Plan>,
    graph: &LeaseGraph,
) -> Result<Vec<u8>, AllocError>
    requires quiet { LeavesQuiet task.now Plain graph.now.table.settings graph.now }
    requires weight { weight_of graph.now.table.settings ≡ unweighted }
    requires plan { IsPlanOf task.now
        (searched_guide task.now graph.now.table.abstraction Plain)
        (home_store graph.now) plan }
    ensures { IfOk result (λ text. IsCertificateOf task.now Plain unweighted
        (searched_guide task.now graph.now.table.abstraction Plain)
        (home_store graph.now) plan text.items) }
{
    // Called for its clause `lawful`, as above.
    let _lawful = task.max_degree();
    let spelling = Spelling::of(task, graph.choice().clone()?);
    let certificate = Certificate::of(alloc, spelling, plan, graph)?;
    let text = written_text(alloc, &certificate)?;
    Ok(text)
}
