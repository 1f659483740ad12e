//! The goal that a plan is traced back from: the one whose row has the least g.
ghost use Rattle.std.specs.Prelude.{◌≡◌, ◌⊎◌, ◌↔◌, ◌<◌, ◌^◌, ℕ, IsTrue, Some, IfSome, IfNone};
ghost use Rattle.pb_lists.specs.Bundle.{row_of};
ghost use Rattle.pb_task.specs.Parts.{space_of};
ghost use Rattle.pb_cert.specs.Traced.{HasGoal, IsFirstGoal, IsFirstIn, HasRowIn, IsNoLater, HasNoLater};

use pb_lists::{Bundle, Store};
use pb_model::Row;
use pb_packed::Packed;
use pb_task::Task;

// A goal that has a row, and the g of that row.
#[derive(Drop)]
pub(crate) struct Goal {
    pub(crate) state: Packed,
    pub(crate) g: u64,
}

// The goal whose row has the least g, and at one g the goal that is the least state. None if no
// goal has a row.
pub(crate) fn first_goal<S: Store>(task: &Task, store: &S) -> Option<Goal>
    requires whole { S.is_whole store.now }
    ensures some { IfSome result (λ goal. IsFirstGoal (space_of task.now) (S.rows store.now)
        goal.state goal.g) }
    ensures small { IfSome result (λ goal. goal.g < 2 ^ 64) }
    ensures none { IfNone result (HasGoal (space_of task.now) (S.rows store.now) → ⊥) }
{
    let mut first = None;
    'parts: for i in 0..store.parts() {
        first = first_in(task, first, store.part(i));
    }
    first
}

// The first goal of the goal so far, if there is one, and of the goals that have a row in this
// part.
fn first_in(task: &Task, so_far: Option<Goal>, bundle: &Bundle) -> Option<Goal>
    ensures kept { (g other : ℕ) → HasNoLater so_far g other → HasNoLater result g other }
    ensures small { IfSome so_far (λ goal. goal.g < 2 ^ 64)
        → IfSome result (λ goal. goal.g < 2 ^ 64) }
    ensures here { IsFirstIn (space_of task.now) (row_of bundle.now) result }
    ensures from { (result ≡ so_far) ⊎ HasRowIn (space_of task.now) (row_of bundle.now) result }
{
    let mut first = so_far;
    'rows: for i in 0..bundle.len() {
        // Few states are goals, so the rows of the others aren't read.
        if task.is_goal(&bundle.state_at(i)) {
            let (state, row) = bundle.at(i);
            first = first_of(task, first, &state, &row);
        }
    }
    first
}

// The first goal of the goal so far, if there is one, and of a state with its row, if the state is
// a goal.
fn first_of(task: &Task, so_far: Option<Goal>, state: &Packed, row: &Row) -> Option<Goal>
    ensures kept { (g other : ℕ) → HasNoLater so_far g other → HasNoLater result g other }
    ensures small { IfSome so_far (λ goal. goal.g < 2 ^ 64)
        → IfSome result (λ goal. goal.g < 2 ^ 64) }
    ensures here { IsTrue ((space_of task.now).is_goal state.now)
        → HasNoLater result row.now.g state.now }
    ensures from { (result ≡ so_far)
        ⊎ ((result ≡ Some (record { state = state.now; g = row.now.g }))
        × IsTrue ((space_of task.now).is_goal state.now)) }
{
    if !task.is_goal(state) {
        return so_far;
    }
    let g = row.g;
    let here = Goal { state: *state, g };
    match so_far {
        None => Some(here),
        Some(goal) => {
            if is_no_later(&goal, g, state) {
                Some(goal)
            } else {
                Some(here)
            }
        }
    }
}

// Whether the goal comes no later than a state with this g.
fn is_no_later(goal: &Goal, g: u64, state: &Packed) -> bool
    ensures { IsTrue result ↔ IsNoLater goal.now.g goal.now.state g state.now }
{
    if goal.g == g {
        goal.state <= *state
    } else {
        goal.g < g
    }
}
