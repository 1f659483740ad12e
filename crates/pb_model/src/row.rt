//! The rows of a search, with their estimates and statuses, and the successors of a state.

use pb_packed::Packed;

/// A lower bound on the cost of every walk from a state to a goal, in the unit of the task's action
/// costs. Or else the fact that no walk reaches a goal. This is the heuristic estimate of Hart,
/// Nilsson and Raphael (1968).
#[derive(Clone, Copy, Debug, PartialEq, Eq)]
pub enum Estimate {
    /// No walk to a goal costs less.
    Cost(u64),
    /// No walk leads to a goal.
    Dead,
}

/// What has become of a row.
#[derive(Clone, Copy, Debug, PartialEq, Eq)]
pub enum Status {
    /// To be expanded: on the open list.
    Opened,
    /// Expanded: on the closed list, with all its successors in the store.
    Closed,
    /// Settled without an expansion: a goal's row that was taken, or a row through which no plan
    /// costs less than the incumbent divided by the weight.
    Cut,
}

/// What a search knows of a state that it has met.
#[derive(Clone, Copy, PartialEq, Eq)]
pub struct Row {
    /// The cost of a known walk from the start to the state.
    pub g: u64,
    /// The heuristic estimate of the state, often called h.
    pub estimate: Estimate,
    /// The state before it on that walk; the start has none.
    pub parent: Option<Packed>,
    /// The number of the action that leads here from the parent.
    pub action: u32,
    /// Whether the row is open, closed or cut.
    pub status: Status,
}

/// A successor of a state.
#[derive(Clone, Copy, PartialEq, Eq)]
pub struct Succ {
    /// The number of the action that leads to it.
    pub action: u32,
    /// The state that the action leads to.
    pub state: Packed,
    /// What the action costs: at least 1.
    pub cost: u64,
}
