//! The plan of a certificate: its walk, its goal and its cost.
ghost use Rattle.std.specs.Prelude.{◌≡◌, ◌≤◌, ◌+◌, ◌<◌, ◌^◌, IsTrue, true, None, Some, IfSome, Option};
ghost use Rattle.pb_model.specs.Certificate.{cost_of};
ghost use Rattle.pb_task.specs.Parts.{space_of, IsTask, greatest_cost};
ghost use Rattle.pb_check.specs.Faults.{Gives};
ghost use Rattle.pb_check.specs.PlanLines.{actions_in, AreActions};
ghost use Rattle.pb_check.specs.Judging.{walk, plan_fault, plan_fault_if_any};

use crate::actions::StatedActions;
use crate::fault::{CertificateFault, CheckError};
use crate::line::number_at;
use crate::passing::need;
use crate::stated::StatedPlan;
use pb_packed::Packed;
use pb_task::Task;

// ---- the plan

// The step by an action of any number. An action that the task doesn't have makes none.
fn step(task: &Task, from: &Packed, action: u64) -> Option<(Packed, u64)>
    requires lawful { IsTask task.now }
    requires state { IsTrue ((space_of task.now).is_state from.now) }
    ensures step { result ≡ (space_of task.now).step from.now action }
    ensures state { IfSome result (λ x. IsTrue ((space_of task.now).is_state x.0)) }
    ensures small { IfSome result (λ x. x.1 ≤ greatest_cost) }
{
    // Compared in 64 bits: a stated number need not fit 32.
    if action < u64::from(task.actions()) {
        task.apply(from, action as u32)
    } else {
        None
    }
}

// Where the actions of so many lines lead, and at what cost, or the first that is not applicable.
fn walk_lines(task: &Task, count: u64, line: u64, text: &[u8]) -> Result<(Packed, u128), CheckError>
    requires lawful { IsTask task.now }
    requires actions { AreActions count line text.now }
    requires lines { line + count < 2 ^ 64 }
    ensures { Gives (λ x. x) result (walk (space_of task.now) (space_of task.now).start 0 0
        (actions_in count line text.now)) }
{
    let mut at = task.initial();
    let mut cost: u128 = 0;
    let mut rest = text;
    for i in 0..count {
        let (action, after) = number_at(line + i, rest, b"")?;
        match step(task, &at, action) {
            None => return Err(CheckError::Fault(CertificateFault::PlanStep { i })),
            Some((next, first)) => {
                at = next;
                cost += u128::from(first);
            }
        }
        rest = after;
    }
    Ok((at, cost))
}

// Where the actions lead, and at what cost, or the first that is not applicable.
fn walk(task: &Task, actions: &StatedActions<'_>) -> Result<(Packed, u128), CheckError>
    requires lawful { IsTask task.now }
    ensures { Gives (λ x. x) result (walk (space_of task.now) (space_of task.now).start 0 0
        actions.now) }
{
    walk_lines(task, actions.count, actions.line, actions.text)
}

#[tactic(auto, unfolding(crate::specs::Judging::plan_fault))]
fn judge_plan(task: &Task, plan: &StatedPlan<'_>) -> Result<(), CheckError>
    requires lawful { IsTask task.now }
    ensures { Gives (λ _. true) result (plan_fault (space_of task.now) plan.now) }
{
    let (goal, cost) = walk(task, &plan.actions)?;
    need(task.is_goal(&goal), CertificateFault::NotGoal)?;
    need(
        u128::from(plan.cost) == cost,
        CertificateFault::Cost {
            said: plan.cost,
            real: cost,
        },
    )
}

pub(crate) fn judge_plan_if_any(
    task: &Task,
    plan: &Option<StatedPlan<'_>>,
) -> Result<(), CheckError>
    requires lawful { IsTask task.now }
    ensures { Gives (λ _. true) result (plan_fault_if_any (space_of task.now) plan.now) }
{
    match plan {
        None => Ok(()),
        Some(plan) => judge_plan(task, plan),
    }
}

// ---- all in order

pub(crate) fn cost_of(plan: &Option<StatedPlan<'_>>) -> Option<u64>
    ensures { result ≡ cost_of plan.now }
{
    match plan {
        None => None,
        Some(plan) => Some(plan.cost),
    }
}
