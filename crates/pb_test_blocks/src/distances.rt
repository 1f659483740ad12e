//! Tests of Manhattan distances on maps and boards.

use pb_estimate::{Choice, Estimator};
use pb_model::Estimate;
use pb_packed::Packed;
use pb_task::{Cells, Class, GridParts, Swamp, Task};
use pb_test_examples::near_board;
use std::alloc::Global;
use std::process::Abort;

// Only values that threads may share and hand on are taken.
fn crosses_threads<T: Send + Sync>(value: &T) {
    let _ = value;
}

// The estimates of a state, of another one, and of the first once more, all by one new estimator.
fn ask<R: Abort>(
    rt: &R,
    alloc: Global,
    task: &Task,
    state: &Packed,
    other: &Packed,
) -> (Estimate, Estimate, Estimate) {
    if !task.is_state(state) || !task.is_state(other) {
        panic!(rt; "no state");
    }
    let mut estimator = Estimator::of(alloc, task, &Choice::plain()).expect(rt, "memory");
    crosses_threads(&estimator);
    let first = estimator.estimate(task, state);
    let second = estimator.estimate(task, other);
    (first, second, estimator.estimate(task, state))
}

/// The same of a task that ends here: it is dropped in this function alone, so its callers'
/// proofs stay short. Both are to be states of the task.
pub fn estimates<R: Abort>(
    rt: &R,
    alloc: Global,
    task: Task,
    state: &Packed,
    other: &Packed,
) -> (Estimate, Estimate, Estimate) {
    ask(rt, alloc, &task, state, other)
}

// On a map of 3 by 3 cells of land, whose goal is the lower middle cell: the estimates of a cell,
// by its column and row, and of the lower right cell.
fn on_square<R: Abort>(rt: &R, alloc: Global, x: u8, y: u8) -> (Estimate, Estimate, Estimate) {
    let land = Class::Land;
    let classes = vec![in alloc; land, land, land, land, land, land, land, land, land];
    let classes = classes.expect(rt, "memory");
    let swamp = vec![in alloc; false; 9].expect(rt, "memory");
    let task = Task::of_grid(GridParts {
        width: 3,
        height: 3,
        cells: Cells::of(classes),
        swamp: Swamp::of(swamp),
        start: (0, 0),
        goal: (1, 2),
    });
    let column = Packed::zero().with_bits(0, 11, u64::from(x));
    let state = column.with_bits(11, 11, u64::from(y));
    let corner = Packed::zero().with_bits(0, 11, 2).with_bits(11, 11, 2);
    estimates(rt, alloc, task, &state, &corner)
}

// On a board of 3 by 3 cells: the estimates of a board, written from its last cell to its first,
// and of the goal.
fn on_board<R: Abort>(rt: &R, alloc: Global, digits: u64) -> (Estimate, Estimate, Estimate) {
    let task = near_board(alloc).expect(rt, "memory");
    let state = Packed::zero().with_bits(0, 64, digits);
    let goal = Packed::zero().with_bits(0, 64, 0x876543210);
    estimates(rt, alloc, task, &state, &goal)
}

// Distances on a map are counted in both directions, and those of all tiles but the blank are
// summed.
//
// The boards, in their order:
// - 1 4 2 / 3 5 8 / 6 7 0, where 1, 4, 5 and 8 are one step away;
// - the goal;
// - 0 2 1 / 3 4 5 / 6 7 8;
// - 8 0 6 / 5 4 7 / 2 3 1, where 4 alone is at home, which has a distance of 21.
#[test]
fn distances_are_summed(rt: HostRuntime) {
    for (x, y, steps) in [(0, 0, 3), (1, 2, 0), (2, 0, 3), (2, 2, 1), (0, 1, 2)] {
        let wanted = Estimate::Cost(steps);
        let found = on_square(&rt, rt.alloc(), x, y);
        assert_eq!(rt; found, (wanted, Estimate::Cost(1), wanted), "{x} {y}");
    }
    for (digits, steps) in [
        (0x076853241, 4),
        (0x876543210, 0),
        (0x876543120, 2),
        (0x132745608, 21),
    ] {
        let wanted = Estimate::Cost(steps);
        let found = on_board(&rt, rt.alloc(), digits);
        assert_eq!(rt; found, (wanted, Estimate::Cost(0), wanted), "{digits:x}");
    }
}
