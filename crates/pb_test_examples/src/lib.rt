//! Small tasks that the crates of tests share.
#![tactic(auto)]

mod boards;
mod maps;
#[cfg(test)]
mod marked;

pub use boards::{near_board, one_step_board, other_ring, solved_board};
pub use maps::{corridor, open_square, shore, two_cells};
