//! Searches that go on at lower weights, on a map with swamp.
ghost use Rattle.std.specs.Prelude.{◌≡◌, ◌<◌, ◌≤◌, ◌+◌, ℕ, IfOk, IfSome};
ghost use Rattle.std.specs.Arc.{arc_value};
ghost use Rattle.pb_machine.specs.Settings.{AreInRange};
ghost use Rattle.pb_test_search.specs.FallingWeights.{IsAfterRuns};

use pb_estimate::Choice;
use pb_lease::LeaseGraph;
use pb_machine::{End, STANDARD, Settings};
use pb_outside::OpenGate;
use pb_search::{search, search_on};
use pb_task::{Cells, Class, GridParts, Swamp, Task};
use std::alloc::{AllocError, Global};
use std::sync::{Arc, Wait};
use std::test::Fail;
use std::thread::Threads;

// A map of 5 by 2 cells, from the first to the last of the first row. The three between are swamp,
// so the way over them costs 4 steps more than they are many. The way round them costs 6.
fn shortcut(alloc: Global) -> Result<Task, AllocError> {
    let task = Task::of_grid(GridParts {
        width: 5,
        height: 2,
        cells: Cells::of(vec![in alloc; Class::Land; 10]?),
        swamp: Swamp::of(vec![in alloc;
            false, true, true, true, false, false, false, false, false, false,
        ]?),
        start: (0, 0),
        goal: (4, 0),
    });
    Ok(task)
}

// The first run, at the weight 3.
fn run_first<R: Threads + Wait + Sync>(
    rt: &R,
    alloc: Global,
    task: &Arc<Task>,
    settings: Settings,
) -> Result<LeaseGraph, AllocError>
    requires range { AreInRange settings }
    ensures { IfOk result (IsAfterRuns (arc_value task.now) 0) }
{
    search(rt, alloc, task, Choice::plain(), settings, &OpenGate)
}

// The next run, at the weight num / 1. None if the end or the incumbent of the run before allows for
// no other run.
fn run_next<R: Threads + Wait + Sync>(
    rt: &R,
    alloc: Global,
    task: &Arc<Task>,
    graph: LeaseGraph,
    num: u64,
) -> Result<Option<LeaseGraph>, AllocError>
    requires weight { (1 ≤ num) × (num ≤ 1000) }
    requires after { (reopenings : ℕ) × (reopenings < 100)
        × IsAfterRuns (arc_value task.now) reopenings graph }
    ensures { (reopenings : ℕ) → IsAfterRuns (arc_value task.now) reopenings graph
        → IfOk result (λ next. IfSome next (IsAfterRuns (arc_value task.now) (reopenings + 1))) }
{
    let (Some(End::Quiet), Some(_)) = (graph.end(), graph.incumbent()) else {
        return Ok(None);
    };
    match graph.reopen(num, 1) {
        Ok(again) => Ok(Some(search_on(rt, alloc, task, again, &OpenGate, None)?)),
        Err((error, _)) => Err(error),
    }
}

// What is seen of a run: its end, its incumbent, and how many events its journal has.
type Seen = (Option<End>, Option<u64>, usize);

fn seen(graph: &LeaseGraph) -> Seen {
    (graph.end(), graph.incumbent(), graph.journal().len())
}

// What is seen of the runs at the weights 3, 2 and 1, as far as they come.
fn fall<R: Threads + Wait + Sync>(
    rt: &R,
    alloc: Global,
    settings: Settings,
) -> Result<[Option<Seen>; 3], AllocError>
    requires range { AreInRange settings }
{
    let task = Arc::new(alloc, shortcut(alloc)?)?;
    let first = run_first(rt, alloc, &task, settings)?;
    let at_three = seen(&first);
    let Some(second) = run_next(rt, alloc, &task, first, 2)? else {
        return Ok([Some(at_three), None, None]);
    };
    let at_two = seen(&second);
    let third = run_next(rt, alloc, &task, second, 1)?;
    let at_one = match &third {
        Some(graph) => Some(seen(graph)),
        None => None,
    };
    Ok([Some(at_three), Some(at_two), at_one])
}

// The settings of a search at the weight 3 by so many workers, with this budget.
fn settings_at_three(workers: u32, budget: u64) -> Settings
    requires { (1 ≤ workers) × (workers ≤ 64) }
    ensures range { AreInRange result }
    ensures plain { result.pattern ≡ 0 }
{
    Settings {
        workers,
        num: 3,
        budget: budget.max(1).min(1 << 40),
        ..STANDARD
    }
}

// What is seen of one run, without its events.
fn ended(seen: Option<Seen>) -> Option<(Option<End>, Option<u64>)> {
    match seen {
        Some((end, incumbent, _)) => Some((end, incumbent)),
        None => None,
    }
}

// At the weight 3 the plan over the swamp is found, which costs 7. At the weight 2 no row is opened
// again, so no block is leased. At the weight 1 one row is, and the way round is found. All runs have
// one budget: with 5 expansions nothing is left for the last run, and with 4 the first one ends by
// its budget.
#[test]
fn one_worker_finds_cheaper_plans_at_lower_weights(rt: HostRuntime) -> Result<(), Fail> {
    let over = Some((Some(End::Quiet), Some(7)));
    let round = Some((Some(End::Quiet), Some(6)));
    let stopped = Some((Some(End::Budget), Some(7)));
    for (budget, last) in [(1000, round), (10, round), (5, stopped)] {
        let [first, second, third] = fall(&rt, rt.alloc(), settings_at_three(1, budget))?;
        assert_eq!(rt; (ended(first), ended(third)), (over, last));
        assert_eq!(rt; second, Some((Some(End::Quiet), Some(7), 2)));
    }
    let [first, second, third] = fall(&rt, rt.alloc(), settings_at_three(1, 4))?;
    assert_eq!(rt; ended(first), Some((Some(End::Budget), None)));
    assert_eq!(rt; (second, third), (None, None));
    Ok(())
}

// With several workers the last run finds the way round too.
#[test]
fn several_workers_end_with_the_cheapest_plan(rt: HostRuntime) -> Result<(), Fail> {
    for workers in [2, 4] {
        let [_, _, third] = fall(&rt, rt.alloc(), settings_at_three(workers, 1000))?;
        assert_eq!(rt; ended(third), Some((Some(End::Quiet), Some(6))));
    }
    Ok(())
}
