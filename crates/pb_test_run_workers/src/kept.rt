//! The plan that is claimed after a run at a weight above 1, beside one that was claimed before.
ghost use Rattle.std.specs.Prelude.{IfOk};
ghost use Rattle.pb_check.specs.Spelling.{PlanFits, PlanFitsIfAny};

use pb_answer::claimed_plan;
use pb_cert::Plan;
use pb_estimate::Choice;
use pb_machine::{STANDARD, Settings};
use pb_outside::OpenGate;
use pb_search::search;
use pb_task::{Cells, Class, GridParts, Swamp, Task};
use std::alloc::{AllocError, Global};
use std::sync::{Arc, Wait};
use std::test::Fail;
use std::thread::Threads;

// A map of 5 by 2 cells, from the first to the last of the first row. The three between are swamp,
// so the way over them costs 7. The way round them costs 6.
fn shortcut(alloc: Global) -> Result<Task, AllocError> {
    let task = Task::of_grid(GridParts {
        width: 5,
        height: 2,
        cells: Cells::of(vec![in alloc; Class::Land; 10]?),
        swamp: Swamp::of(vec![in alloc;
            false, true, true, true, false, false, false, false, false, false,
        ]?),
        start: (0, 0),
        goal: (4, 0),
    });
    Ok(task)
}

// What is claimed after a run at the weight 3, by its rows and what was claimed before.
fn claimed<R: Threads + Wait + Sync>(
    rt: &R,
    alloc: Global,
    before: Option<Plan>,
) -> Result<Option<Plan>, AllocError>
    requires { PlanFitsIfAny before }
{
    let task = Arc::new(alloc, shortcut(alloc)?)?;
    let settings = Settings { num: 3, ..STANDARD };
    let graph = search(rt, alloc, &task, Choice::plain(), settings, &OpenGate)?;
    claimed_plan(alloc, &task, &graph, before)
}

// A plan of six steps, whatever it is a plan of.
fn six_steps(alloc: Global, cost: u32) -> Result<Plan, AllocError>
    ensures { IfOk result PlanFits }
{
    let actions = vec![in alloc; 1, 1, 1, 1, 1, 1]?;
    Ok(Plan::of(actions, u64::from(cost)))
}

// The cost of a plan, and how many steps it has.
fn counted(plan: Option<Plan>) -> Option<(u64, usize)> {
    match plan {
        Some(plan) => Some((plan.cost(), plan.actions().len())),
        None => None,
    }
}

// The rows lead over the swamp, at a cost of 7. So does what is claimed if nothing was claimed before,
// or a plan that costs as much or more. A cheaper plan that was claimed before is kept.
#[test]
fn a_cheaper_plan_of_the_claim_before_is_kept(rt: HostRuntime) -> Result<(), Fail> {
    let first = counted(claimed(&rt, rt.alloc(), None)?);
    assert_eq!(rt; first, Some((7, 4)));
    for (cost, kept, steps) in [(6, 6, 6), (7, 7, 4), (8, 7, 4)] {
        let before = six_steps(rt.alloc(), cost)?;
        let plan = counted(claimed(&rt, rt.alloc(), Some(before))?);
        assert_eq!(rt; plan, Some((kept, steps)));
    }
    Ok(())
}
