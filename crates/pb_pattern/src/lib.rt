//! Projected tasks and pattern values: least costs of walks through a smaller task, which are lower
//! bounds on the cost of a way to a goal.
//!
//! The definition `pattern_value` in `specs` gives the value of a state for each pattern number.
#![tactic(auto)]

mod costs;
mod graph;
mod images;
mod laws;
mod pieces;
mod sets;
mod table;

pub use laws::{
    least_costs_are_small, least_costs_are_unique, pattern_values_are_least,
    patterns_are_admissible, projections_are_admissible, rounds_give_least, stable_costs_are_least,
    strips_project, tiles_project,
};
pub use table::Table;
