//! Abstract graphs of planning tasks: a projection maps each state to a block, and a search leases
//! blocks. This is structured duplicate detection, from Zhou and Hansen, "Structured Duplicate
//! Detection in External-Memory Graph Search" (2004). Burns, Lemons, Ruml and Zhou use it so in
//! "Best-First Heuristic Search for Multicore Machines" (Journal of Artificial Intelligence
//! Research 39, 2010).
//!
//! - A grid is cut into squares of cells.
//! - The block of a board depends on the cells of the blank and up to two tiles.
//! - The block of a state of a STRIPS task depends on up to 12 ground atoms, those that the fewest
//!   ground actions change.
//!
//! The projections and the edges between blocks are definitions in `specs`, by the kind of task.
#![tactic(auto)]

mod changes;
mod graph;
mod interference;
mod laws;
mod lists;
mod numbers;
mod placing;
mod projection;
mod scopes;
mod squares;
mod tiles;
mod tracked;
mod tracking;

pub use graph::AbsGraph;
pub use laws::{
    abstract_graphs_are_blocks, blocks_ask_for_no_costs, edges_are_steps, graphs_are_unique,
};
pub use projection::Projection;
pub use tracked::TrackedAtoms;
