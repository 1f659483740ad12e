//! A test of successors among marked actions.
ghost use Rattle.std.specs.Prelude.{◌≡◌};
ghost use Rattle.pb_task.specs.Strips.{IsGroundAction};

use pb_model::Succ;
use pb_packed::Packed;
use pb_task::{ActionName, Actions, GroundAction, Grounding, StripsParts, Task};
use std::alloc::Global;
use std::process::Abort;

// The set of those atoms below 64 whose bits are 1.
fn set(atoms: u64) -> Packed
    ensures { result ≡ atoms }
{
    Packed::of_word(atoms)
}

// An action over four atoms that deletes what it needs.
fn action<R: Abort>(rt: &R, alloc: Global, needs: u64, adds: u64, cost: u64) -> GroundAction
    ensures { IsGroundAction 4 result }
{
    assert!(rt; needs < 16 && adds < 16 && 1 <= cost && cost <= 1_048_576);
    let text = String::from_str(alloc, "(act)").expect(rt, "memory");
    GroundAction {
        name: ActionName::of(text),
        needs: set(needs),
        adds: set(adds),
        deletes: set(needs),
        cost,
    }
}

// Three actions over four atoms: from atom 0 to atom 1, from atom 1 to atom 2, and to atom 3 from
// any state.
fn three_actions<R: Abort>(rt: &R, alloc: Global) -> Task {
    let first = action(rt, alloc, 1, 2, 3);
    let second = action(rt, alloc, 2, 4, 5);
    let free = action(rt, alloc, 0, 8, 7);
    let actions = vec![in alloc; first, second, free].expect(rt, "memory");
    Task::of_strips(StripsParts {
        atoms: 4,
        actions: Actions::of(alloc, actions).expect(rt, "memory"),
        start: set(1),
        goal: set(8),
        never: false,
        grounding: Grounding::All,
    })
}

// The successors among all actions, of which there are at most 64.
fn among_all<R: Abort>(rt: &R, alloc: Global, task: &Task, state: &Packed) -> Vec<Succ> {
    assert!(rt; task.actions() <= 64);
    assert!(rt; task.is_state(state));
    let degree = task.max_degree() as usize;
    let mut found = Vec::with_capacity(alloc, degree).expect(rt, "memory");
    task.successors_among(state, &[u64::MAX], &mut found);
    found
}

#[test]
fn marked_actions_are_tried_in_their_order(rt: HostRuntime) {
    let task = three_actions(&rt, rt.alloc());
    let found = among_all(&rt, rt.alloc(), &task, &set(3));
    let steps = [(0, 2, 3), (1, 5, 5), (2, 11, 7)];
    assert_eq!(rt; found.len(), steps.len());
    for (successor, (action, state, cost)) in found.iter().zip(steps) {
        assert_eq!(rt; (successor.action, successor.cost), (action, cost));
        assert!(rt; successor.state == set(state));
    }
    assert_eq!(rt; among_all(&rt, rt.alloc(), &task, &set(8)).len(), 1);
}
