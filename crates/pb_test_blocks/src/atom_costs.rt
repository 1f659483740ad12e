//! Tests of hmax: the costs of atoms along chains and joins of actions.
ghost use Rattle.std.specs.Prelude.{◌≡◌, ◌<◌, ◌^◌};
ghost use Rattle.pb_task.specs.Strips.{IsGroundAction};

use crate::distances::estimates;
use pb_model::Estimate;
use pb_packed::Packed;
use pb_task::{ActionName, Actions, GroundAction, Grounding, StripsParts, Task};
use std::alloc::Global;
use std::process::Abort;

// The set of those atoms below 64 whose bits are 1.
fn set(atoms: u64) -> Packed
    ensures { result ≡ atoms }
{
    Packed::zero().with_bits(0, 64, atoms)
}

// An action over four atoms that deletes what it needs.
fn action<R: Abort>(rt: &R, alloc: Global, needs: u64, adds: u64, cost: u64) -> GroundAction
    ensures { IsGroundAction 4 result }
{
    assert!(rt; needs < 16 && adds < 16 && 1 <= cost && cost <= 1_048_576);
    let text = String::from_str(alloc, "(act)").expect(rt, "memory");
    GroundAction {
        name: ActionName::of(text),
        needs: set(needs),
        adds: set(adds),
        deletes: set(needs),
        cost,
    }
}

// From atom 0 over atom 1 and atom 2 to atom 3, the last step first, and a dearer step from atom 0
// to atom 2. The goal may ask for what never holds too. The estimates are those of a state, and of
// the state where atom 3 alone holds.
fn in_chain<R: Abort>(
    rt: &R,
    alloc: Global,
    goal: u64,
    never: bool,
    state: u64,
) -> (Estimate, Estimate, Estimate) {
    let third = action(rt, alloc, 4, 8, 1 << 20);
    let second = action(rt, alloc, 2, 4, 5);
    let first = action(rt, alloc, 1, 2, 3);
    let direct = action(rt, alloc, 1, 4, 9);
    let actions = vec![in alloc; third, second, first, direct].expect(rt, "memory");
    let task = Task::of_strips(StripsParts {
        atoms: 4,
        actions: Actions::of(alloc, actions).expect(rt, "memory"),
        start: set(1),
        goal: set(goal % 16),
        never,
        grounding: Grounding::All,
    });
    estimates(rt, alloc, task, &set(state), &set(8))
}

// Atoms 1 and 2 are got from atom 0 at different costs, and both are needed for atom 3. The
// estimates are those of a state, and of the state where atoms 1 and 2 hold.
fn in_join<R: Abort>(
    rt: &R,
    alloc: Global,
    goal: u64,
    state: u64,
) -> (Estimate, Estimate, Estimate) {
    let cheap = action(rt, alloc, 1, 2, 3);
    let dear = action(rt, alloc, 1, 4, 8);
    let both = action(rt, alloc, 6, 8, 2);
    let actions = vec![in alloc; cheap, dear, both].expect(rt, "memory");
    let task = Task::of_strips(StripsParts {
        atoms: 4,
        actions: Actions::of(alloc, actions).expect(rt, "memory"),
        start: set(1),
        goal: set(goal % 16),
        never: false,
        grounding: Grounding::All,
    });
    estimates(rt, alloc, task, &set(state), &set(6))
}

// The set of one atom, in four words.
fn only(atom: u8) -> Packed
    ensures { result < 2 ^ 256 }
{
    match Packed::zero().with(u32::from(atom), true).as_words::<4>() {
        Some(words) => Packed::of_few(words),
        None => Packed::zero(),
    }
}

// The one action needs the last of 256 atoms, deletes it, and adds this one, which is the goal. The
// estimates are those of the state where one atom holds, and of the start.
fn from_last<R: Abort>(
    rt: &R,
    alloc: Global,
    atom: u8,
    holds: u8,
) -> (Estimate, Estimate, Estimate) {
    let text = String::from_str(alloc, "(turn)").expect(rt, "memory");
    let turn = GroundAction {
        name: ActionName::of(text),
        needs: only(255),
        adds: only(atom),
        deletes: only(255),
        cost: 1,
    };
    let actions = vec![in alloc; turn].expect(rt, "memory");
    let task = Task::of_strips(StripsParts {
        atoms: 256,
        actions: Actions::of(alloc, actions).expect(rt, "memory"),
        start: only(255),
        goal: only(atom),
        never: false,
        grounding: Grounding::All,
    });
    estimates(rt, alloc, task, &only(holds), &only(255))
}

// In the chain atom 2 costs 8 by atom 1, and not 9; a goal that holds costs nothing; without atom 0
// no goal is reached. A goal that asks for what never holds is reached from no state, not even if
// its other atoms hold.
//
// In the join what an action needs is as dear as its dearest atom alone, and so is the goal. An
// atom that an action deletes stands. An estimate doesn't depend on those before it.
#[test]
fn atoms_cost_what_a_chain_and_a_join_cost(rt: HostRuntime) {
    let (dead, free) = (Estimate::Dead, Estimate::Cost(0));
    for (goal, never, state, wanted, beside) in [
        (8, false, 1, Estimate::Cost((1 << 20) + 8), free),
        (8, false, 2, Estimate::Cost((1 << 20) + 5), free),
        (8, false, 3, Estimate::Cost((1 << 20) + 5), free),
        (8, false, 4, Estimate::Cost(1 << 20), free),
        (8, false, 8, free, free),
        (8, false, 0, dead, free),
        (4, false, 1, Estimate::Cost(8), dead),
        (2, false, 1, Estimate::Cost(3), dead),
        (2, false, 4, dead, dead),
        (3, false, 1, Estimate::Cost(3), dead),
        (0, false, 0, free, free),
        (8, true, 1, dead, dead),
        (8, true, 8, dead, dead),
        (0, true, 0, dead, dead),
        (1, true, 1, dead, dead),
    ] {
        let found = in_chain(&rt, rt.alloc(), goal, never, state);
        assert_eq!(rt;
            found,
            (wanted, beside, wanted),
            "chain: {goal} {never} from {state}"
        );
    }
    for (goal, state, wanted, beside) in [
        (8, 1, Estimate::Cost(10), Estimate::Cost(2)),
        (8, 2, dead, Estimate::Cost(2)),
        (8, 3, Estimate::Cost(10), Estimate::Cost(2)),
        (8, 5, Estimate::Cost(5), Estimate::Cost(2)),
        (8, 6, Estimate::Cost(2), Estimate::Cost(2)),
        (6, 1, Estimate::Cost(8), free),
        (7, 1, Estimate::Cost(8), dead),
        (15, 1, Estimate::Cost(10), dead),
    ] {
        let found = in_join(&rt, rt.alloc(), goal, state);
        assert_eq!(rt;
            found,
            (wanted, beside, wanted),
            "join: {goal} from {state}"
        );
    }
}

#[test]
fn all_256_atoms_have_costs(rt: HostRuntime) {
    let start = Estimate::Cost(1);
    for atom in [0, 63, 64, 127, 128, 254] {
        for (holds, wanted) in [
            (255, start),
            (atom, Estimate::Cost(0)),
            (253, Estimate::Dead),
        ] {
            let found = from_last(&rt, rt.alloc(), atom, holds);
            assert_eq!(rt; found, (wanted, start, wanted), "{atom} from {holds}");
        }
    }
}
