//! What is kept after a run of a search with falling weights: the plan that is claimed, and the name
//! of its certificate.
ghost use Rattle.std.specs.Prelude.{◌≡◌, ◌≤◌, ◌⊎◌, IfOk, IsFalse, Some, option_map, string_bytes};
ghost use Rattle.pb_machine.specs.declared.event.End.TheVariants.{Quiet, Budget};
ghost use Rattle.pb_task.specs.Parts.{space_of};
ghost use Rattle.pb_lists.specs.Store.{IsQuietEnd};
ghost use Rattle.pb_lease.specs.Choices.{is_out_in};
ghost use Rattle.pb_lease.specs.Begins.{home_store};
ghost use Rattle.pb_check.specs.Spelling.{PlanFitsIfAny};
ghost use Rattle.pb_falling.specs.Falling.{weight_at, kept_plan};
ghost use Rattle.pb_answer.specs.Falling.{numbered};
ghost use Rattle.pb_answer.specs.FallingRuns.{guide_in, KeepsPlan};

use pb_cert::{Plan, trace};
use pb_lease::LeaseGraph;
use pb_machine::End;
use pb_task::Task;
use std::alloc::{AllocError, Global};

/// The plan that is claimed after a run: the one that the rows lead to, or that of the claim before
/// if it is cheaper. None if the run found no plan, or used up the budget. An error is out of memory.
pub fn claimed_plan(
    alloc: Global,
    task: &Task,
    graph: &LeaseGraph,
    before: Option<Plan>,
) -> Result<Option<Plan>, AllocError>
    requires task { graph.now.task ≡ task.now }
    requires whole { IsFalse (is_out_in graph.now) }
    requires ended { (graph.now.table.end ≡ Some Quiet) ⊎ (graph.now.table.end ≡ Some Budget) }
    requires quiet { graph.now.table.end ≡ Some Quiet
        → IsQuietEnd (space_of task.now) (guide_in graph.now) (home_store graph.now) }
    requires fits { PlanFitsIfAny before }
    ensures { IfOk result (KeepsPlan task.now graph.now before) }
{
    // Called for its clause `lawful`: the proof asks for a lawful task.
    let _lawful = task.max_degree();
    match graph.end() {
        Some(End::Quiet) => match graph.incumbent() {
            Some(_) => {
                let traced = trace(alloc, task, graph)?;
                Ok(Some(cheaper_plan(before, traced)))
            }
            None => Ok(None),
        },
        Some(End::Budget) => Ok(None),
        // By the clause `ended` there is no other end.
        Some(End::Memory) | None => unreachable!(),
    }
}

// The traced plan, unless the one before is cheaper.
fn cheaper_plan(before: Option<Plan>, traced: Plan) -> Plan
    ensures { result ≡ kept_plan before traced }
{
    match before {
        Some(before) => {
            // At the same cost the traced plan is taken, to which this run's rows lead.
            if before.cost() < traced.cost() {
                before
            } else {
                traced
            }
        }
        None => traced,
    }
}

/// The same plan once more. An error is out of memory.
pub(crate) fn copy_plan(alloc: Global, plan: &Plan) -> Result<Plan, AllocError>
    ensures { IfOk result (λ copy. copy ≡ plan.now) }
{
    Ok(Plan::of(plan.actions().to_vec(alloc)?, plan.cost()))
}

/// The name of a run's certificate, if there is one: the given name, a full stop and the number of
/// the run. An error is out of memory.
pub(crate) fn numbered_name(
    alloc: Global,
    name: Option<&str>,
    run: u64,
) -> Result<Option<String>, AllocError>
    ensures { IfOk result (λ named. option_map (λ t. string_bytes t) named
        ≡ option_map (λ n. numbered n run) (option_map (λ t. t.now) name.entry)) }
{
    match name {
        Some(name) => Ok(Some(format!(in alloc; "{name}.{run}")?)),
        None => Ok(None),
    }
}

/// The numerator of a run's weight, over the same denominator: from num at run 0 down to den at run
/// `steps`.
pub(crate) fn numerator_at(num: u64, den: u64, steps: u64, run: u64) -> u64
    requires small { num ≤ 1000 }
    requires at_least_one { den ≤ num }
    requires some { 1 ≤ steps }
    requires few { steps ≤ 20 }
    requires within { run ≤ steps }
    ensures { result ≡ (weight_at (record { num = num; den = den }) steps run).num }
{
    den + (num - den) * (steps - run) / steps
}
