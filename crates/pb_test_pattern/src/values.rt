//! Tests of pattern values, and the STRIPS task that other tests of this crate use too.
ghost use Rattle.std.specs.Prelude.{◌≡◌};
ghost use Rattle.pb_task.specs.Strips.{IsGroundAction};

use pb_model::Estimate;
use pb_packed::Packed;
use pb_pattern::Table;
use pb_task::{ActionName, Actions, GroundAction, Grounding, StripsParts, Task};
use pb_test_examples::{near_board, open_square, other_ring};
use std::alloc::Global;
use std::process::Abort;

/// The pattern value of a state for a pattern number, or None if it is Dead.
pub fn value<R: Abort>(rt: &R, alloc: Global, task: &Task, k: u32, state: &Packed) -> Option<u64> {
    if 12 < k || !task.is_state(state) {
        panic!(rt; "no state, or no pattern number");
    }
    let table = Table::of(alloc, task, k).expect(rt, "memory");
    assert_eq!(rt; table.pattern(), k);
    match table.least(task, state) {
        Estimate::Cost(cost) => Some(cost),
        Estimate::Dead => None,
    }
}

// The values of a task's start for the pattern numbers 0 to 3.
fn starts<R: Abort>(rt: &R, alloc: Global, task: Task) -> [Option<u64>; 4] {
    let start = task.initial();
    let first = value(rt, alloc, &task, 0, &start);
    let second = value(rt, alloc, &task, 1, &start);
    let third = value(rt, alloc, &task, 2, &start);
    [first, second, third, value(rt, alloc, &task, 3, &start)]
}

/// The set of those atoms below 64 whose bits are 1.
pub fn set(atoms: u64) -> Packed
    ensures { result ≡ atoms }
{
    Packed::zero().with_bits(0, 64, atoms)
}

// An action over three atoms that deletes what it needs.
fn action<R: Abort>(rt: &R, alloc: Global, needs: u64, adds: u64, cost: u64) -> GroundAction
    ensures { IsGroundAction 3 result }
{
    assert!(rt; needs < 8 && adds < 8 && 1 <= cost && cost <= 1_048_576);
    let text = String::from_str(alloc, "(act)").expect(rt, "memory");
    GroundAction {
        name: ActionName::of(text),
        needs: set(needs),
        adds: set(adds),
        deletes: set(needs),
        cost,
    }
}

/// A task in which atom 2 can be spent on atom 0 at cost 3 or on atom 1 at cost 5, and both are
/// wanted.
pub fn spent_once<R: Abort>(rt: &R, alloc: Global) -> Task {
    let first = action(rt, alloc, 4, 1, 3);
    let second = action(rt, alloc, 4, 2, 5);
    let actions = vec![in alloc; first, second].expect(rt, "memory");
    Task::of_strips(StripsParts {
        atoms: 3,
        actions: Actions::of(alloc, actions).expect(rt, "memory"),
        start: set(4),
        goal: set(3),
        never: false,
        grounding: Grounding::All,
    })
}

// What is wanted counts as far as it is tracked: nothing, atom 0, or atoms 0 and 1. With atom 2
// tracked there is no way.
#[test]
fn spending_once_is_seen_by_three_atoms(rt: HostRuntime) {
    let task = spent_once(&rt, rt.alloc());
    let found = starts(&rt, rt.alloc(), task);
    assert_eq!(rt; found, [Some(0), Some(3), Some(8), None]);
}

// The blank of 1 4 2 / 3 5 8 / 6 7 0 is four steps from home, and four steps are enough. On
// 0 2 / 1 3 the pieces move in a ring: the blank is at home, and tile 1 comes home in four steps.
// Tiles 1 and 2 never change their order there.
#[test]
fn pieces_move_as_on_the_board(rt: HostRuntime) {
    let near = near_board(rt.alloc()).expect(&rt, "memory");
    let found = starts(&rt, rt.alloc(), near);
    assert_eq!(rt; found, [Some(4), Some(4), Some(4), Some(4)]);
    let ring = other_ring(rt.alloc()).expect(&rt, "memory");
    let found = starts(&rt, rt.alloc(), ring);
    assert_eq!(rt; found, [Some(0), Some(4), None, None]);
}

#[test]
fn a_grid_has_no_pattern(rt: HostRuntime) {
    let square = open_square(rt.alloc()).expect(&rt, "memory");
    let found = starts(&rt, rt.alloc(), square);
    assert_eq!(rt; found, [Some(0), Some(0), Some(0), Some(0)]);
}
