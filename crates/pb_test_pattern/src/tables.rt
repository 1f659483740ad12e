//! Estimators that look up tables.
use crate::values::spent_once;
use pb_estimate::{Choice, Estimator};
use pb_model::Estimate;
use pb_table_lines::read_tables;
use std::alloc::Global;
use std::process::Abort;
use std::sync::Arc;

// The estimate of the start by the tables of a text, or None if they don't suit the task.
fn ask<R: Abort>(rt: &R, alloc: Global, text: &[u8]) -> Option<Estimate> {
    let task = spent_once(rt, alloc);
    let start = task.initial();
    assert!(rt; task.is_state(&start));
    let tables = match read_tables(alloc, 1, text) {
        Ok(tables) => tables,
        Err(_) => panic!(rt; "the text states no tables"),
    };
    let choice = Choice::of_tables(Arc::new(alloc, tables).expect(rt, "memory"));
    if !choice.suits(&task) {
        return None;
    }
    let mut estimator = Estimator::of(alloc, &task, &choice).expect(rt, "memory");
    assert_eq!(rt; estimator.pattern(), 0);
    Some(estimator.estimate(&task, &start))
}

// Both actions are taken one after the other in the table, since it doesn't track the atom that
// they need: 3 + 5. The plain estimate is 5.
#[test]
fn tables_estimate_the_start(rt: HostRuntime) {
    let text = b"estimate tables 1 1 0\ntable 3 4\n0 8\n1 5\n2 3\n3 0\n";
    assert_eq!(rt; ask(&rt, rt.alloc(), text), Some(Estimate::Cost(8)));
}

#[test]
fn a_trap_makes_the_start_dead(rt: HostRuntime) {
    let text = b"estimate tables 1 1 1\ntable 3 4\n0 8\n1 5\n2 3\n3 0\ntrap 7 3\n1\n2\n4\n";
    assert_eq!(rt; ask(&rt, rt.alloc(), text), Some(Estimate::Dead));
}

#[test]
fn tables_that_are_not_paid_for_do_not_suit(rt: HostRuntime) {
    let text = b"estimate tables 1 1 0\ntable 3 4\n0 9\n1 5\n2 3\n3 0\n";
    assert_eq!(rt; ask(&rt, rt.alloc(), text), None);
}
