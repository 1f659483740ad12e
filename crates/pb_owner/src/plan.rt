//! What is the same for all turns of an owner in a round.

use pb_abstract::AbsGraph;
use pb_estimate::Choice;
use pb_mail::{LetterRule, Post};
use pb_task::Task;

/// What all owners of a search have in common.
#[derive(Drop)]
pub struct Plan<'a> {
    pub task: &'a Task,
    /// The blocks of the task.
    pub abstraction: &'a AbsGraph,
    /// The choice of an estimate.
    pub choice: &'a Choice,
    /// The numerator and the denominator of the weight.
    pub weight: (u64, u64),
    /// How many owners there are.
    pub owners: u32,
}

/// A round, as one owner sees it.
#[derive(Drop)]
pub struct Round<'a, K: LetterRule> {
    pub plan: &'a Plan<'a>,
    /// The queues of the round.
    pub post: &'a Post<K>,
    /// The number of the owner.
    pub number: u32,
}
