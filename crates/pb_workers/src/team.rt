//! What all workers of a yard have in common.
use crate::event_count::EventCount;
use pb_abstract::AbsGraph;
use pb_outside::Gate;
use pb_task::Task;
use pb_yard::Yard;

/// What all workers of a yard have in common.
#[derive(Drop)]
pub struct Team<'a, G: Gate> {
    /// The task that they search.
    pub task: &'a Task,
    /// The blocks of the task.
    pub abstraction: &'a AbsGraph,
    /// The yard that leases the blocks.
    pub yard: &'a Yard,
    /// The count of events on which they sleep.
    pub count: &'a EventCount,
    /// What is called at each lease, renewal and return.
    pub gate: &'a G,
}
