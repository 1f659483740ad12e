//! Grids from the texts of a MovingAI map and scenario (Sturtevant, "Benchmarks for grid-based
//! pathfinding", 2012).
//!
//! The relation `SpellsGrid` in `specs` says which texts spell a grid, and the function
//! `grid_reading` which refusal comes first.
#![tactic(auto)]

mod classes;
mod error;
mod header;
mod laws;
mod lines;
mod map;
mod reader;
mod scenario;
mod words;

pub use error::GridError;
pub use laws::{
    read_as_spelled, refusals_are_of_texts, refusals_have_their_case, spelled_grids_are_grids,
    spelled_grids_are_unique, swamp_changes_marks_alone,
};
pub use reader::read_grid;
