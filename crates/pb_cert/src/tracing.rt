//! A plan, traced back from a goal to the start by the parents and actions of the rows.
ghost use Rattle.std.specs.Prelude.{◌≡◌, ◌≢◌, ◌≤◌, ℕ, IsTrue, None, Some, IfOk};
ghost use Rattle.pb_model.specs.declared.row.Row.{Row};
ghost use Rattle.pb_model.specs.Plan.{IsPlan};
ghost use Rattle.pb_task.specs.Parts.{space_of, IsTask};
ghost use Rattle.pb_lists.specs.Store.{IsSoundAt, rows_at_home, guide_to, store_with};
ghost use Rattle.pb_cert.specs.Traced.{HasGoal, IsTrace, IsLastStep};

use crate::Plan;
use crate::goal::first_goal;
use pb_lists::Store;
use pb_model::Row;
use pb_packed::Packed;
use pb_task::Task;
use std::alloc::{AllocError, Global};

// The last step of the way to a state: its action, its cost, and the state that it comes from.
#[derive(Drop)]
struct Step {
    action: u32,
    parent: Packed,
    cost: u64,
}

// The row of a state in the part that is its home, or None if it has none.
fn row_at_home<S: Store>(task: &Task, store: &S, state: &Packed) -> Option<Row>
    requires whole { S.is_whole store.now }
    requires of_task { S.is_of store.now (space_of task.now) }
    requires is_state { IsTrue ((space_of task.now).is_state state.now) }
    ensures { result ≡ rows_at_home (S.home store.now) (S.rows store.now) state.now }
{
    let home = store.home(state);
    store.part(home).row(state)
}

// The last step of the way to a state, as its row says.
fn last_step<S: Store>(task: &Task, store: &S, state: &Packed) -> Step
    requires lawful { IsTask task.now }
    requires whole { S.is_whole store.now }
    requires of_task { S.is_of store.now (space_of task.now) }
    requires sound { IsSoundAt (space_of task.now) (S.home store.now) (S.rows store.now)
        (S.weight store.now) }
    requires found { (row : Row)
        × (rows_at_home (S.home store.now) (S.rows store.now) state.now ≡ Some row) }
    requires not_start { state.now ≢ (space_of task.now).start }
    ensures { IsLastStep (space_of task.now)
        (rows_at_home (S.home store.now) (S.rows store.now)) state.now result.action
        result.parent result.cost }
{
    // In a sound store each state on the way has a row, and each but the start a parent.
    let Some(row) = row_at_home(task, store, state) else {
        unreachable!()
    };
    let Some(parent) = row.parent else {
        unreachable!()
    };
    let Some((_, cost)) = task.apply(&parent, row.action) else {
        unreachable!()
    };
    Step {
        action: row.action,
        parent,
        cost,
    }
}

/// The plan that the rows give: the actions on the way from the start to a goal, by the parents and
/// actions of the rows. Its cost is the sum of theirs. The goal is the one whose row has the least
/// g, and at one g the least state. An error is out of memory.
pub fn trace<S: Store>(alloc: Global, task: &Task, store: &S) -> Result<Plan, AllocError>
    requires whole { S.is_whole store.now }
    requires of_task { S.is_of store.now (space_of task.now) }
    requires sound { IsSoundAt (space_of task.now) (S.home store.now) (S.rows store.now)
        (S.weight store.now) }
    requires goal { HasGoal (space_of task.now) (S.rows store.now) }
    ensures plan { IfOk result (λ plan. IsPlan (space_of task.now) plan) }
    ensures cheapest { IfOk result (λ plan. (home goal : ℕ) (row : Row)
        → S.rows store.now home goal ≡ Some row → IsTrue ((space_of task.now).is_goal goal)
        → plan.cost ≤ row.g) }
    ensures traced { IfOk result (λ plan. IsTrace (space_of task.now)
        (guide_to (S.home store.now))
        (store_with (S.rows store.now) (S.weight store.now) None) plan.actions) }
{
    let start = task.initial();
    let Some(goal) = first_goal(task, store) else {
        unreachable!()
    };
    let mut actions = Vec::new(alloc);
    let mut cost = 0u64;
    let mut at = goal.state;
    'back: while at != start {
        let step = last_step(task, store, &at);
        actions.push(step.action)?;
        cost += step.cost;
        at = step.parent;
    }
    actions.reverse();
    Ok(Plan { actions, cost })
}
