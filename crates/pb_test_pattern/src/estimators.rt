//! Estimators that look up a table that was made before them.
use crate::values::spent_once;
use pb_estimate::Estimator;
use pb_model::Estimate;
use pb_pattern::Table;
use pb_task::Task;
use std::alloc::Global;
use std::process::Abort;
use std::sync::Arc;

// The number of an estimator's pattern, and its estimate of the start, if it looks up the table of
// this number.
fn ask<R: Abort>(rt: &R, alloc: Global, task: &Task, k: u32) -> (u32, Estimate) {
    let start = task.initial();
    assert!(rt; k <= 12 && task.is_state(&start));
    let table = Table::of(alloc, task, k).expect(rt, "memory");
    let table = Arc::new(alloc, table).expect(rt, "memory");
    let mut estimator = Estimator::with(alloc, task, table).expect(rt, "memory");
    (estimator.pattern(), estimator.estimate(task, &start))
}

// The same for the numbers 0 to 3 of a task that ends here.
fn ask_each<R: Abort>(rt: &R, alloc: Global, task: Task) -> [(u32, Estimate); 4] {
    let first = ask(rt, alloc, &task, 0);
    let second = ask(rt, alloc, &task, 1);
    let third = ask(rt, alloc, &task, 2);
    [first, second, third, ask(rt, alloc, &task, 3)]
}

// The dearest wanted atom costs 5. One tracked atom costs 3, which is less, and two cost 8. With
// three tracked atoms there is no way.
#[test]
fn the_greater_estimate_counts(rt: HostRuntime) {
    let task = spent_once(&rt, rt.alloc());
    let found = ask_each(&rt, rt.alloc(), task);
    let five = Estimate::Cost(5);
    let wanted = [
        (0, five),
        (1, five),
        (2, Estimate::Cost(8)),
        (3, Estimate::Dead),
    ];
    assert_eq!(rt; found, wanted);
}
