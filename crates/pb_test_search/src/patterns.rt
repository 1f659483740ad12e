//! Searches with a pattern database: they end with the cost of those without one.
ghost use Rattle.std.specs.Prelude.{◌≡◌, ◌<◌, IfOk};
ghost use Rattle.pb_task.specs.Strips.{IsGroundAction};

use crate::samples::{ONE_WORKER, Sample, search_sample};
use pb_machine::{End, Settings};
use pb_outside::OpenGate;
use pb_packed::Packed;
use pb_task::{ActionName, Actions, GroundAction, Grounding, StripsParts, Task};
use std::alloc::{AllocError, Global};
use std::test::Fail;

// The set of those atoms below 64 whose bits are 1.
fn set(atoms: u64) -> Packed
    ensures { result ≡ atoms }
{
    Packed::zero().with_bits(0, 64, atoms)
}

// An action over three atoms that deletes what it needs. The cost is at least 1.
fn action(alloc: Global, needs: u64, adds: u64, cost: u32) -> Result<GroundAction, AllocError>
    requires { (needs < 8) × (adds < 8) }
    ensures { IfOk result (IsGroundAction 3) }
{
    let text = String::from_str(alloc, "(act)")?;
    Ok(GroundAction {
        name: ActionName::of(text),
        needs: set(needs),
        adds: set(adds),
        deletes: set(needs),
        cost: u64::from(cost.max(1).min(1000)),
    })
}

// Atom 2 can be spent on atom 0 at cost 3 or on atom 1 at cost 5, and both are wanted. A third
// action adds it again at cost 2, or adds nothing.
fn spending(alloc: Global, again: bool) -> Result<Task, AllocError> {
    let first = action(alloc, 4, 1, 3)?;
    let second = action(alloc, 4, 2, 5)?;
    let third = action(alloc, 0, if again { 4 } else { 0 }, 2)?;
    let actions = vec![in alloc; first, second, third]?;
    Ok(Task::of_strips(StripsParts {
        atoms: 3,
        actions: Actions::of(alloc, actions)?,
        start: set(4),
        goal: set(3),
        never: false,
        grounding: Grounding::All,
    }))
}

/// Atom 2 can be spent once, and two atoms are wanted: there is no plan.
pub(crate) fn spent_once(alloc: Global) -> Result<Task, AllocError> {
    spending(alloc, false)
}

/// Atom 2 can be had again for 2. The cheapest plan costs 3 + 2 + 5.
pub(crate) fn spent_twice(alloc: Global) -> Result<Task, AllocError> {
    spending(alloc, true)
}

// The cost is that of a search without a pattern, by one worker and by two. With all three atoms
// tracked, the start is seen to be dead, and nothing is expanded.
#[test]
fn a_pattern_changes_no_cost(rt: HostRuntime) -> Result<(), Fail> {
    for workers in [1, 2] {
        for pattern in [0, 1, 3, 12] {
            let settings = Settings {
                workers,
                pattern,
                ..ONE_WORKER
            };
            for (sample, incumbent) in [
                (Sample::NearBoard, Some(4)),
                (Sample::OtherRing, None),
                (Sample::Square, Some(4)),
                (Sample::SpentTwice, Some(10)),
                (Sample::SpentOnce, None),
            ] {
                let seen = search_sample(&rt, rt.alloc(), sample, settings, &OpenGate)?;
                assert_eq!(rt;
                    (seen.end, seen.incumbent),
                    (Some(End::Quiet), incumbent),
                    "{workers} workers, pattern {pattern}"
                );
            }
        }
        for (pattern, expansions) in [(0, 1), (2, 1), (3, 0)] {
            let settings = Settings {
                workers,
                pattern,
                ..ONE_WORKER
            };
            let seen = search_sample(&rt, rt.alloc(), Sample::SpentOnce, settings, &OpenGate)?;
            assert_eq!(rt; seen.expansions, expansions);
        }
    }
    Ok(())
}
