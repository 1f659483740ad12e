//! The faults of rows, in the order of the text.
ghost use Rattle.std.specs.Prelude.{◌≡◌, ◌+◌, ◌*◌, ◌<◌, ◌^◌, length, IsTrue, true, false, None, Some, Option};
ghost use Rattle.pb_task.specs.Parts.{space_of};
ghost use Rattle.pb_estimate.specs.Tables.{IsOfTask};
ghost use Rattle.pb_check.specs.Judging.{unless, is_weight, rows_order_fault, first_fault_by, state_fault, g_of, target_fault, step_fault, steps_fault, may_be_cut, Rise};
ghost use Rattle.pb_check.specs.RowsToJudge.{fault_by, weight_of};

use crate::fault::CertificateFault;
use crate::passing::unless;
use crate::rows::{StatedRow, StatedRows};
use crate::rows_to_judge::RowsToJudge;
use crate::stated::StatedWeight;
use pb_estimate::Estimator;
use pb_model::Estimate;
use pb_packed::Packed;
use pb_task::Task;

// ---- the rows

// The first row whose state is not above that of the row before it.
pub(crate) fn rows_order_fault(line: u64, rows: &StatedRows) -> Option<CertificateFault>
    requires { line + length rows.now < 2 ^ 64 }
    ensures fault { result ≡ rows_order_fault line rows.now }
    ensures rises { result ≡ None → Rise rows.now }
{
    first_in_order(line, rows)
}

fn first_in_order(line: u64, rows: &StatedRows) -> Option<CertificateFault>
    requires { line + length rows.now < 2 ^ 64 }
    ensures { result ≡ rows_order_fault line rows.now }
{
    for i in 1..rows.len() {
        if !rows.rises_at(i) {
            let at = line + i as u64;
            return Some(CertificateFault::RowOrder { line: at });
        }
    }
    None
}

// The first row whose state is no state of the task.
pub(crate) fn states_fault(task: &Task, line: u64, rows: &StatedRows) -> Option<CertificateFault>
    requires { line + length rows.now < 2 ^ 64 }
    ensures { result ≡ first_fault_by (state_fault (space_of task.now)) line rows.now }
{
    for i in 0..rows.len() {
        let row = rows.at(i);
        let at = line + i as u64;
        let fault = unless(
            task.is_state(&row.state),
            CertificateFault::BadState { line: at },
        );
        if fault.is_some() {
            return fault;
        }
    }
    None
}

fn target_fault(line: u64, action: u32, most: u128, g: Option<u64>) -> Option<CertificateFault>
    ensures { result ≡ target_fault line action most g }
{
    match g {
        None => Some(CertificateFault::Missing { line, action }),
        Some(g) => unless(
            u128::from(g) <= most,
            CertificateFault::TooDear { line, action },
        ),
    }
}

fn step_fault(
    rows: &StatedRows,
    line: u64,
    g: u64,
    action: u32,
    step: Option<(Packed, u64)>,
    near: &mut usize,
) -> Option<CertificateFault>
    requires { Rise rows.now }
    ensures { result ≡ step_fault rows.now line g action step }
{
    match step {
        None => None,
        Some((to, cost)) => target_fault(
            line,
            action,
            u128::from(g) + u128::from(cost),
            rows.g_of(&to, near),
        ),
    }
}

// Where the state that an action leads to may have its row.
fn place_near(places: &[usize], action: u32) -> usize {
    match places.get(action as usize) {
        Some(place) => *place,
        None => 0,
    }
}

// Keeps where the next state that an action leads to may have its row.
fn keep_near(places: &mut [usize], action: u32, near: usize) {
    // Places are only hints, so no clause says that there is one for each action.
    if (action as usize) < places.len() {
        places[action as usize] = near;
    }
}

// The fault of the first action that has one. For each action, the place after the row of the state
// that it leads to is kept. Rows rise, so the next state that the action leads to often has its row
// there.
fn steps_fault(
    task: &Task,
    rows: &StatedRows,
    line: u64,
    g: u64,
    state: &Packed,
    places: &mut [usize],
) -> Option<CertificateFault>
    requires rise { Rise rows.now }
    requires state { IsTrue ((space_of task.now).is_state state.now) }
    ensures { result ≡ steps_fault (space_of task.now) rows.now line g state.now
        (space_of task.now).actions }
{
    for action in 0..task.actions() {
        let mut near = place_near(places, action);
        let step = task.apply(state, action);
        let fault = step_fault(rows, line, g, action, step, &mut near);
        keep_near(places, action, near);
        if fault.is_some() {
            return fault;
        }
    }
    None
}

fn may_be_cut(weight: &StatedWeight, best: Option<u64>, g: u64, estimate: Estimate) -> bool
    requires weight { is_weight (record { num = weight.now.num; den = weight.now.den }) ≡ true }
    ensures { result ≡ may_be_cut (record { num = weight.now.num; den = weight.now.den }) best g
        estimate }
{
    match estimate {
        Estimate::Dead => true,
        Estimate::Cost(h) => match best {
            None => false,
            Some(best) => {
                u128::from(weight.den) * u128::from(best)
                    <= u128::from(weight.num) * (u128::from(g) + u128::from(h))
            }
        },
    }
}

// The fault of a row, judged by itself against all rows.
#[tactic(auto, unfolding(crate::specs::Judging::row_fault))]
pub(crate) fn row_fault(
    judged: &RowsToJudge<'_>,
    estimator: &mut Estimator,
    line: u64,
    row: &StatedRow,
    places: &mut [usize],
) -> Option<CertificateFault>
    requires task { IsOfTask estimator.old judged.now.task.now judged.now.choice.now }
    requires weight { is_weight (weight_of judged.now) ≡ true }
    requires rise { Rise judged.now.rows.now }
    requires state { IsTrue ((space_of judged.now.task.now).is_state row.now.state) }
    ensures fault { result ≡ fault_by judged.now line row.now }
    ensures task { IsOfTask estimator.new judged.now.task.now judged.now.choice.now }
{
    let task = judged.task;
    if row.is_closed {
        if task.is_goal(&row.state) {
            Some(CertificateFault::GoalClosed { line })
        } else {
            steps_fault(task, judged.rows, line, row.g, &row.state, places)
        }
    } else {
        let estimate = estimator.estimate(task, &row.state);
        unless(
            may_be_cut(judged.weight, judged.best, row.g, estimate),
            CertificateFault::Low { line },
        )
    }
}

// The first fault of the rows, each judged by itself against all rows.
pub(crate) fn rows_fault(
    judged: &RowsToJudge<'_>,
    estimator: &mut Estimator,
    places: &mut [usize],
) -> Option<CertificateFault>
    requires task { IsOfTask estimator.old judged.now.task.now judged.now.choice.now }
    requires weight { is_weight (weight_of judged.now) ≡ true }
    requires rise { Rise judged.now.rows.now }
    requires states { first_fault_by (state_fault (space_of judged.now.task.now)) judged.now.line
        judged.now.rows.now ≡ None }
    requires lines { judged.now.line + length judged.now.rows.now < 2 ^ 64 }
    ensures fault { result ≡ first_fault_by (fault_by judged.now) judged.now.line
        judged.now.rows.now }
    ensures task { IsOfTask estimator.new judged.now.task.now judged.now.choice.now }
{
    let rows = judged.rows;
    for i in 0..rows.len() {
        let row = rows.at(i);
        let at = judged.line + i as u64;
        let fault = row_fault(judged, estimator, at, &row, places);
        if fault.is_some() {
            return fault;
        }
    }
    None
}
