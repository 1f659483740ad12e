//! A strong estimate that a certificate states: sums over tables of values, and traps.
//!
//! Contracts see tables as lists. The definition `tables_estimate` in `specs` says what they
//! estimate, and `suit` whether they suit a task.
#![tactic(auto)]

mod closed;
mod effect;
mod estimate;
mod fault;
mod images;
mod laws;
mod numbers;
mod order;
mod paid;
mod sets;
mod sums;
mod table;
mod tables;
mod trap;

pub use fault::TablesFault;
pub use images::ImageList;
pub use laws::{
    estimates_are_small, examples_are_estimated, examples_are_judged, tables_are_admissible,
};
pub use table::Table;
pub use tables::Tables;
pub use trap::Trap;
