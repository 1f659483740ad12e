//! Whole runs of the program over files and output in memory, as the crates of tests above call
//! them.
#![tactic(auto)]

mod runs;

pub use runs::{OPEN_MAP, SCENARIO, gated_outcome, grid_shelf, outcome};
